// The fault of a field that is not as it should be (specs/Faults).
ghost use Rattle.std.specs.Prelude.{◌≡◌};
ghost use Rattle.lines.specs.Faults.{fault_at};

use model::refusals::Reason;

// `wrong` is told of bytes that are no such field; where the field ends at the place, 2.
pub(crate) fn fault_at(s: &[u8], at: usize, wrong: Reason) -> Reason
    ensures { result ≡ fault_at wrong s.now at }
{
    if s.len() <= at || s[at] == b' ' || s[at] == b'\n' {
        return Reason::Form;
    }
    wrong
}
