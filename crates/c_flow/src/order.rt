//! Lists in order, with each item once.

ghost use Rattle.std.specs.Prelude.{◌≡◌, true};
ghost use Rattle.std.specs.List.{Contains};
ghost use Rattle.std.specs.List.Sorted.{IsStrictlySortedBy};

/// Puts items in order, each once.
pub fn put_in_order<T: Ord + Drop>(all: &mut Vec<T>)
    requires exact { (x y : T) → T.eq x y ≡ true → x ≡ y }
    ensures ordered { IsStrictlySortedBy T.cmp all.new.items }
    ensures kept { (x : T) → Contains all.old.items x → Contains all.new.items x }
    ensures none_added { (x : T) → Contains all.new.items x → Contains all.old.items x }
{
    all.sort_unstable();
    all.dedup();
}
