// Where the sections stand: found once, and handed down.
ghost use Rattle.std.specs.Prelude.{◌+◌, ◌≤◌, ◌<◌};
ghost use Rattle.form.specs.Right.{Right};
ghost use Rattle.record.specs.Laid.{Stands, Laid};

use crate::{Layout, Part};
use form::bytes::{num1, num2};
use form::entry::width;

// The entries of the section after section k, whose entries are p.
fn after(s: &[u8], k: u16, p: Part) -> Part
    requires { Right s.now × (2 ≤ k) × (k < 8) × Stands s.now k p }
    ensures { Stands s.now (k + 1) result }
{
    let at = p.at + width(k) * p.count;
    Part {
        at: at + 2,
        count: num2(s, at),
    }
}

// The layout of a record that has the form.
pub fn layout(s: &[u8]) -> Layout
    requires { Right s.now }
    ensures { Laid s.now result }
{
    let events = Part {
        at: 4,
        count: num2(s, 2),
    };
    let causes = after(s, 2, events);
    let locks = after(s, 3, causes);
    let initials = after(s, 4, locks);
    let stores = after(s, 5, initials);
    let lockorder = after(s, 6, stores);
    let sources = after(s, 7, lockorder);
    Layout {
        processors: num1(s, 1),
        events: events.count,
        causes,
        locks,
        initials,
        stores,
        lockorder,
        sources,
        views: sources.at + 2 * sources.count + 2,
    }
}
