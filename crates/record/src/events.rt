// Events.
ghost use Rattle.std.specs.Prelude.{◌≡◌, ◌+◌, ◌<◌};
ghost use Rattle.order.specs.Decides.{Decides};
ghost use Rattle.form.specs.Right.{Right};
ghost use Rattle.record.specs.Says.{execution_of};
ghost use Rattle.record.specs.Words.{SameInstruction};

use crate::Event;
use form::bytes::{num1, num2, num4};

// Event e.
pub fn event_of(s: &[u8], e: usize) -> Event
    requires { Right s.now × (e < (execution_of s.now).events.size) }
    ensures { result ≡ (execution_of s.now).events.item e }
{
    let at = 4 + 12 * e;
    Event {
        processor: num1(s, at),
        kind: num1(s, at + 1),
        index: num2(s, at + 2),
        place: num4(s, at + 4),
        value: num4(s, at + 8),
    }
}

// Whether two events are of one instruction.
pub fn same_instruction(x: Event, y: Event) -> bool
    ensures { Decides result (SameInstruction x y) }
{
    (x.processor == y.processor) & (x.index == y.index)
}
