// The view question: the part of the record that is a processor's view.
ghost use Rattle.std.specs.Prelude.{◌≡◌, ◌<◌, MatchResult};
ghost use Rattle.form.specs.Bytes.{num};
ghost use Rattle.form.specs.Place.{start, view_start};
ghost use Rattle.form.specs.Right.{Right};
ghost use Rattle.record.specs.View.{views_at, Located, Seen, Refused};

use crate::{Part, Unseen};
use form::Fault;
use form::bytes::{num1, num2};
use form::chain::sections;
use form::place::counts;
use form::whole::{head, tail};

// Reads the whole record: where section 9 starts, or the first fault.
#[tactic(auto, unfolding(crate::specs::View::views_at, form::specs::Whole::whole, form::specs::Whole::body), using(form::proofs::Rights::sections_end))]
fn views_at(s: &[u8]) -> Result<usize, Fault>
    ensures { result ≡ views_at s.now }
{
    let at = head(s)?;
    let c = counts(s);
    let nine = sections(c, s, at)?;
    tail(c, s, nine)?;
    Ok(nine)
}

// Where the view of processor `p` starts, its count included; section 9 starts at `nine`.
fn view_start(s: &[u8], nine: usize, p: u16) -> usize
    requires { Right s.now × (p < num 1 s.now 1) × (nine ≡ start s.now 9) }
    ensures { result ≡ view_start s.now p }
{
    let mut a = nine + 2;
    for _q in 0..p {
        a = a + 2 + num2(s, a);
    }
    a
}

// The events of processor `p`'s view.
pub fn find(s: &[u8], p: u16) -> Result<Part, Unseen>
    ensures { MatchResult result (Located s.now p) (Refused s.now p) }
{
    let nine = views_at(s)?;
    if num1(s, 1) <= usize::from(p) {
        return Err(Unseen::NoProcessor);
    }
    let at = view_start(s, nine, p);
    Ok(Part {
        at: at + 2,
        count: num2(s, at),
    })
}

// The events of processor `p`'s view, as a part of the lent record itself.
pub fn view(s: &[u8], p: u16) -> Result<&[u8], Unseen>
    ensures { MatchResult result (Seen s.entry p) (Refused s.now p) }
{
    let part = find(s, p)?;
    Ok(&s[part.at..part.at + part.count])
}
