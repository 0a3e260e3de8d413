// What is kept of the places that were found.
ghost use Rattle.std.specs.Prelude.{◌≡◌, ◌≤◌, ◌<◌, ◌++◌, pos, length, slice_index_or, IfOk, OnOk};
ghost use Rattle.std.specs.List.{All};
ghost use Rattle.std.specs.Ordering.{int_eq};
ghost use Rattle.j_search.specs.Kept.{found_bits, own_bits, own_places, lost_places, class_row, class_rows};

use j_noun::{NoMemory, Pool};

/// 1 for each place that isn't n.
pub fn found_bits(pool: &mut Pool, places: &[i64], n: usize) -> Result<Vec<u8>, NoMemory>
    requires { n ≤ 4194304 }
    ensures { IfOk result (λ v. v.items ≡ found_bits n places.now) }
{
    let none = n as i64;
    let mut bits = pool.bytes(places.len())?;
    for place in places {
        let bit = if *place == none { 0 } else { 1 };
        let Ok(()) = bits.push(bit) else {
            return Err(NoMemory);
        };
    }
    Ok(bits)
}

// Whether the place at k is n.
fn is_place(places: &[i64], k: usize, n: usize) -> bool
    requires within { k < length places.now }
    requires few { n ≤ 4194304 }
    ensures { result ≡ int_eq (slice_index_or places.now k (pos 0)) (pos n) }
{
    places[k] == n as i64
}

/// 1 for each place that stands at itself.
pub fn own_bits(pool: &mut Pool, places: &[i64]) -> Result<Vec<u8>, NoMemory>
    requires { length places.now ≤ 4194304 }
    ensures { IfOk result (λ v. v.items ≡ own_bits places.now) }
{
    let mut bits = pool.bytes(places.len())?;
    for k in 0..places.len() {
        let bit = if is_place(places, k, k) { 1 } else { 0 };
        let Ok(()) = bits.push(bit) else {
            return Err(NoMemory);
        };
    }
    Ok(bits)
}

/// The places that stand at themselves.
pub fn own_places(pool: &mut Pool, places: &[i64]) -> Result<Vec<usize>, NoMemory>
    requires { length places.now ≤ 4194304 }
    ensures { IfOk result (λ v. v.items ≡ own_places places.now) }
{
    let mut own = pool.fresh(places.len())?;
    for k in 0..places.len() {
        if is_place(places, k, k) {
            let Ok(()) = own.push(k) else {
                return Err(NoMemory);
            };
        }
    }
    Ok(own)
}

/// Where n stands.
pub fn lost_places(pool: &mut Pool, places: &[i64], n: usize) -> Result<Vec<usize>, NoMemory>
    requires { n ≤ 4194304 }
    ensures { IfOk result (λ v. v.items ≡ lost_places n places.now) }
{
    let mut lost = pool.fresh(places.len())?;
    for k in 0..places.len() {
        if is_place(places, k, n) {
            let Ok(()) = lost.push(k) else {
                return Err(NoMemory);
            };
        }
    }
    Ok(lost)
}

// Appends 1 for each place that is i.
fn append_class(out: &mut Vec<u8>, places: &[i64], i: usize) -> Result<(), NoMemory>
    requires { i ≤ 4194304 }
    ensures { OnOk result (out.new.items ≡ out.old.items ++ class_row i places.now) }
{
    let own = i as i64;
    for place in places {
        let bit = if *place == own { 1 } else { 0 };
        let Ok(()) = out.push(bit) else {
            return Err(NoMemory);
        };
    }
    Ok(())
}

/// For each of some places a row of 1 where it stands.
pub fn class_rows(pool: &mut Pool, own: &[usize], places: &[i64]) -> Result<Vec<u8>, NoMemory>
    requires { All (λ k. k ≤ 4194304) own.now }
    ensures { IfOk result (λ v. v.items ≡ class_rows own.now places.now) }
{
    let mut bits = pool.bytes(own.len().saturating_mul(places.len()))?;
    for i in own {
        append_class(&mut bits, places, *i)?;
    }
    Ok(bits)
}
