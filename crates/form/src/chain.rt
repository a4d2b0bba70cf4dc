// A count with its entries, and runs of them: sections 2 to 8, and the views.
ghost use Rattle.std.specs.Prelude.{◌≡◌, ◌≤◌, ◌<◌, length};
ghost use Rattle.form.specs.Form.{Section, entries, block, sections, views};

use crate::bytes::num2;
use crate::entry::{due, entry, limit, require, width};
use crate::glance::glance;
use crate::{Counts, Fault};

// `m` entries of section `k`.
pub fn entries(c: Counts, s: &[u8], k: u16, m: usize, at: usize) -> Result<usize, Fault>
    requires { Section k × (m < 65536) × (at ≤ length s.now) }
    ensures { result ≡ entries c s.now k m at }
{
    let seen = glance(c, s, k, m, at);
    let mut a = at + seen * width(k);
    for _i in seen..m {
        a = entry(c, s, k, a)?;
    }
    Ok(a)
}

// A count of section `k`, its limit, its entries.
#[tactic(auto, using(crate::proofs::Rights::due_well, crate::proofs::Branches::block_empty), unfolding(crate::specs::Form::block))]
pub fn block(c: Counts, s: &[u8], k: u16, at: usize) -> Result<usize, Fault>
    requires { Section k }
    ensures { result ≡ block c s.now k at }
{
    let a = due(s, k, 2, at)?;
    let m = num2(s, at);
    if m == 0 {
        return Ok(a);
    }
    require(m <= limit(k), 3, k, at)?;
    entries(c, s, k, m, a)
}

// Sections 2 to 8.
#[tactic(auto, unfolding(crate::specs::Form::sections, crate::specs::Steps::upto, crate::specs::Steps::run))]
pub fn sections(c: Counts, s: &[u8], at: usize) -> Result<usize, Fault>
    ensures { result ≡ sections c s.now at }
{
    let mut a = at;
    for k in 2..9 {
        a = block(c, s, k, a)?;
    }
    Ok(a)
}

// `m` views.
#[tactic(auto, unfolding(crate::specs::Form::views, crate::specs::Steps::upto, crate::specs::Steps::run))]
pub fn views(c: Counts, s: &[u8], m: usize, at: usize) -> Result<usize, Fault>
    ensures { result ≡ views c s.now m at }
{
    let mut a = at;
    for _i in 0..m {
        a = block(c, s, 9, a)?;
    }
    Ok(a)
}
