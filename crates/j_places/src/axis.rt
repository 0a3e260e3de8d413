// What is kept along one axis.
ghost use Rattle.std.specs.Prelude.{◌≡◌, ◌≤◌, ◌<◌, ◌+◌, length};
ghost use Rattle.std.proofs.Common.{get_or};
ghost use Rattle.j_places.specs.AxisPlaces.{kept};
ghost use Rattle.j_places.specs.Axes.{places_of, IsAxis};
ghost use Rattle.j_places.specs.declared.axis.Keeping.TheVariants.{Taken as TakenKind, Dropped as DroppedKind, Rotated as RotatedKind};

/// Which places of an axis a verb keeps, by a number.
#[derive(Clone, Copy, PartialEq, Eq, Debug)]
pub(crate) enum Keeping {
    Taken,
    Dropped,
    Rotated,
}

/// What is kept of an axis: fills, a run of items, a run from the first item on, and fills.
#[derive(Clone, Copy, Debug)]
pub(crate) struct Axis {
    pub(crate) extent: usize,
    pub(crate) before: usize,
    pub(crate) start: usize,
    pub(crate) count: usize,
    pub(crate) wrapped: usize,
    pub(crate) after: usize,
}

impl Axis {
    /// How many places are kept.
    pub(crate) fn places(&self) -> usize
        requires { IsAxis self.now }
        ensures { result ≡ length (places_of self.now) }
    {
        self.before + self.count + self.wrapped + self.after
    }

    /// What stands at the kept place `k`: an item, or none for fills.
    pub(crate) fn place(&self, k: usize) -> Option<usize>
        requires is { IsAxis self.now }
        requires within { k < length (places_of self.now) }
        ensures { result ≡ get_or (places_of self.now) k result }
    {
        if k < self.before {
            return None;
        }
        let inner = k - self.before;
        if inner < self.count {
            return Some(self.start + inner);
        }
        let behind = inner - self.count;
        if behind < self.wrapped {
            return Some(behind);
        }
        None
    }
}

// The first items, or the last ones where the number is negative, with fills where there are fewer.
fn taken(k: i64, extent: usize) -> Axis
    ensures places { places_of result ≡ kept TakenKind k extent }
    ensures extent { result.extent ≡ extent }
    ensures is { IsAxis result }
{
    let wanted = k.unsigned_abs() as usize;
    let fills = wanted.saturating_sub(extent);
    let count = wanted - fills;
    if k < 0 {
        Axis {
            extent,
            before: fills,
            start: extent - count,
            count,
            wrapped: 0,
            after: 0,
        }
    } else {
        Axis {
            extent,
            before: 0,
            start: 0,
            count,
            wrapped: 0,
            after: fills,
        }
    }
}

// All items but the first, or but the last ones where the number is negative.
fn dropped(k: i64, extent: usize) -> Axis
    requires { extent ≤ 4194304 }
    ensures places { places_of result ≡ kept DroppedKind k extent }
    ensures extent { result.extent ≡ extent }
    ensures is { IsAxis result }
{
    let out = k.unsigned_abs() as usize;
    let count = extent.saturating_sub(out);
    let start = if k < 0 { 0 } else { extent - count };
    Axis {
        extent,
        before: 0,
        start,
        count,
        wrapped: 0,
        after: 0,
    }
}

// The items moved left, round the end.
fn rotated(k: i64, extent: usize) -> Axis
    requires { extent ≤ 4194304 }
    ensures places { places_of result ≡ kept RotatedKind k extent }
    ensures extent { result.extent ≡ extent }
    ensures is { IsAxis result }
{
    if extent == 0 {
        return dropped(0, 0);
    }
    let left = k.rem_euclid(extent as i64) as usize;
    Axis {
        extent,
        before: 0,
        start: left,
        count: extent - left,
        wrapped: left,
        after: 0,
    }
}

/// What a verb keeps of an axis of that length, by a number.
pub(crate) fn kept_axis(way: Keeping, k: i64, extent: usize) -> Axis
    requires { extent ≤ 4194304 }
    ensures places { places_of result ≡ kept way k extent }
    ensures extent { result.extent ≡ extent }
    ensures is { IsAxis result }
{
    match way {
        Keeping::Taken => taken(k, extent),
        Keeping::Dropped => dropped(k, extent),
        Keeping::Rotated => rotated(k, extent),
    }
}
