// What buffers of atoms hold.
ghost use Rattle.std.specs.Prelude.{◌≡◌, ◌++◌, [], ◌∷◌, replicate, OnOk, IfOk};

use j_noun::{NoMemory, Noun, Pool, boxes};

/// An element of a buffer of atoms.
pub trait Stored: Drop {
    /// An empty buffer with room for `n` elements.
    fn buffer(pool: &mut Pool, n: usize) -> Result<Vec<Self>, NoMemory>
        ensures { IfOk result (λ v. v.items ≡ []) };

    /// Appends a copy.
    fn append_one(out: &mut Vec<Self>, element: &Self) -> Result<(), NoMemory>
        ensures { OnOk result (out.new.items ≡ out.old.items ++ element.now ∷ []) };

    /// Appends copies.
    fn append(out: &mut Vec<Self>, run: &[Self]) -> Result<(), NoMemory>
        ensures { OnOk result (out.new.items ≡ out.old.items ++ run.now) };
}

impl Stored for i64 {
    fn buffer(pool: &mut Pool, n: usize) -> Result<Vec<i64>, NoMemory>
        ensures { IfOk result (λ v. v.items ≡ []) }
    {
        pool.ints(n)
    }

    fn append_one(out: &mut Vec<i64>, element: &i64) -> Result<(), NoMemory>
        ensures { OnOk result (out.new.items ≡ out.old.items ++ element.now ∷ []) }
    {
        let is_appended = out.push(*element).is_ok();
        if is_appended { Ok(()) } else { Err(NoMemory) }
    }

    fn append(out: &mut Vec<i64>, run: &[i64]) -> Result<(), NoMemory>
        ensures { OnOk result (out.new.items ≡ out.old.items ++ run.now) }
    {
        let is_appended = match run {
            [z] => out.push(*z).is_ok(),
            _ => out.extend_from_slice(run).is_ok(),
        };
        if is_appended { Ok(()) } else { Err(NoMemory) }
    }
}

impl Stored for u8 {
    fn buffer(pool: &mut Pool, n: usize) -> Result<Vec<u8>, NoMemory>
        ensures { IfOk result (λ v. v.items ≡ []) }
    {
        pool.bytes(n)
    }

    fn append_one(out: &mut Vec<u8>, element: &u8) -> Result<(), NoMemory>
        ensures { OnOk result (out.new.items ≡ out.old.items ++ element.now ∷ []) }
    {
        let is_appended = out.push(*element).is_ok();
        if is_appended { Ok(()) } else { Err(NoMemory) }
    }

    fn append(out: &mut Vec<u8>, run: &[u8]) -> Result<(), NoMemory>
        ensures { OnOk result (out.new.items ≡ out.old.items ++ run.now) }
    {
        let is_appended = match run {
            [b] => out.push(*b).is_ok(),
            _ => out.extend_from_slice(run).is_ok(),
        };
        if is_appended { Ok(()) } else { Err(NoMemory) }
    }
}

impl Stored for Noun {
    fn buffer(pool: &mut Pool, n: usize) -> Result<Vec<Noun>, NoMemory>
        ensures { IfOk result (λ v. v.items ≡ []) }
    {
        boxes(pool, n)
    }

    fn append_one(out: &mut Vec<Noun>, element: &Noun) -> Result<(), NoMemory>
        ensures { OnOk result (out.new.items ≡ out.old.items ++ element.now ∷ []) }
    {
        let copy = element.duplicate()?;
        let is_appended = out.push(copy).is_ok();
        if is_appended { Ok(()) } else { Err(NoMemory) }
    }

    fn append(out: &mut Vec<Noun>, run: &[Noun]) -> Result<(), NoMemory>
        ensures { OnOk result (out.new.items ≡ out.old.items ++ run.now) }
    {
        for y in run {
            let copy = y.duplicate()?;
            let Ok(()) = out.push(copy) else {
                return Err(NoMemory);
            };
        }
        Ok(())
    }
}

/// A buffer with copies of these elements.
pub fn copied<T: Stored>(pool: &mut Pool, run: &[T]) -> Result<Vec<T>, NoMemory>
    ensures { IfOk result (λ v. v.items ≡ run.now) }
{
    let mut out = T::buffer(pool, run.len())?;
    T::append(&mut out, run)?;
    Ok(out)
}

/// Appends that many fills.
pub fn append_fills<T: Stored>(out: &mut Vec<T>, fill: &T, count: usize) -> Result<(), NoMemory>
    ensures { OnOk result (out.new.items ≡ out.old.items ++ replicate count fill.now) }
{
    for _ in 0..count {
        T::append_one(out, fill)?;
    }
    Ok(())
}

/// A buffer with that many fills.
pub fn filled<T: Stored>(pool: &mut Pool, fill: &T, count: usize) -> Result<Vec<T>, NoMemory>
    ensures { IfOk result (λ v. v.items ≡ replicate count fill.now) }
{
    let mut out = T::buffer(pool, count)?;
    append_fills(&mut out, fill, count)?;
    Ok(out)
}
