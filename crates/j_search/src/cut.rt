// The forms of cuts.

/// Whether a fret begins or ends a piece, and whether it is dropped.
#[derive(Clone, Copy, PartialEq, Eq, Debug)]
pub enum CutForm {
    Begin,
    BeginDrop,
    End,
    EndDrop,
}
