//! The first fault of a source.

ghost use Rattle.std.specs.Prelude.{◌≡◌};
ghost use Rattle.c_type.specs.Faults.{comes_before, earlier, first_fault};

use c_type_expressions::Fault;

/// Whether a fault comes before another: it ends at an earlier token, or at the same one with a lesser code, or with
/// the same code in a smaller construct.
fn comes_before(one: Fault, other: Fault) -> bool
    ensures { result ≡ comes_before one other }
{
    if one.last != other.last {
        return one.last < other.last;
    }
    if one.code.number != other.code.number {
        return one.code.number < other.code.number;
    }
    one.first.at > other.first.at
}

/// The earlier of a fault and one that may be there.
fn earlier(best: Option<Fault>, fault: Fault) -> Fault
    ensures { result ≡ earlier best fault }
{
    match best {
        None => fault,
        Some(so_far) => {
            if comes_before(fault, so_far) {
                fault
            } else {
                so_far
            }
        }
    }
}

/// The first of faults.
pub fn first_fault(faults: &[Fault]) -> Option<Fault>
    ensures { result ≡ first_fault faults.now }
{
    let mut best: Option<Fault> = None;
    for fault in faults {
        best = Some(earlier(best, *fault));
    }
    best
}
