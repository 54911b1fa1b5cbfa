// What the calls on a heap share once the heap was found sound: the class of a request, and the reply of a refused call. specs/Deciding.antt says
// how a call decides.

#![tactic(auto)]

mod request;

ghost use Rattle.std.specs.Prelude.{◌≡◌};
ghost use Rattle.heap_core.specs.Parts.{refused_with};

use answers::Refusal;
use heap_state::{Heap, Reply};
pub use request::class_for;

// The reply of a refused call: the record is as it was.
pub fn refused(h: Heap, refusal: Refusal) -> Reply
    ensures { result ≡ refused_with h refusal }
{
    Reply {
        answer: Err(refusal),
        heap: h,
    }
}
