// What pieces are made by.
use j_search::CutForm;

/// The places of each key: the key's place of each item, the keys' places in the order of the nub, the first place of each key, and for each place the next one of its key.
#[derive(Drop)]
pub struct Links {
    pub classes: Vec<i64>,
    pub firsts: Vec<usize>,
    pub heads: Vec<usize>,
    pub next: Vec<usize>,
}

/// Oblique lines, cuts with their frets, or keys.
#[derive(Drop)]
pub enum Lines {
    Obliques,
    Cuts(CutForm, Vec<usize>),
    Keys(Links),
}
