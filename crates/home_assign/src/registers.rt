//! Which registers are free for a name.

ghost use Rattle.std.specs.Prelude.{◌≡◌, ◌+◌, ◌<◌, ◌≤◌, ◌==◌, ◌&&◌, ◌||◌, ◌↔◌, ℕ, false, true, length};
ghost use Rattle.bit_rows.specs.Grid.{is_set, row_at};
ghost use Rattle.home_assign.specs.Table.{AreWide};

use crate::rows::meet;
use bit_rows::Rows;

/// Which names of a graph interfere: one is written where the other is live behind it. And which of them have which
/// registers.
#[derive(Drop)]
pub struct Interference {
    /// For each name those that are live behind a place where it is written. Behind these rows stand further ones, by
    /// number: 0 is not used; 1 to 15 have for each register the names that have it; 16 to 30 for each register those
    /// that are live behind a place where one of these is written; 31 and 32 are to work with; and 33 is without any
    /// name.
    pub(crate) rows: Rows,
    /// How many names there are.
    pub(crate) names: u32,
    ghost few: { names ≤ 3000 },
    ghost each: { length rows ≡ names + 34 },
    ghost wide: { AreWide names rows },
    ghost spare: { (y : ℕ) → is_set rows (names + 32) y ≡ false },
    ghost none: { (y : ℕ) → is_set rows (names + 33) y ≡ false },
    ghost gathered: { (r x y : ℕ) → r < 15 → x < names → is_set rows (names + (1 + r)) x ≡ true → is_set rows x y ≡ true
        → is_set rows (names + (16 + r)) y ≡ true },
    ghost only: { (r y : ℕ) → r < 15 → ((x : ℕ) → is_set rows (names + (1 + r)) x ≡ true → is_set rows x y ≡ false)
        → is_set rows (names + (16 + r)) y ≡ false },
}

impl Interference {
    ghost use Rattle.home_assign.specs.Registers.{HaveSameClashes, HaveSameRegisters, IsFreeFor, has};

    /// Whether two rows have a name in common.
    fn meets(&mut self, a: u32, b: u32) -> bool
        requires a { a < self.old.names + 31 }
        requires b { b < self.old.names + 31 }
        ensures names { self.new.names ≡ self.old.names }
        ensures common { (result ≡ false) ↔
            ((y : ℕ) → is_set self.old.rows a y ≡ true → is_set self.old.rows b y ≡ false) }
        ensures others { (r : ℕ) → r < self.old.names + 31 → row_at self.new.rows r ≡ row_at self.old.rows r }
    {
        let spare = self.names + 31;
        let _emptied = meet(&mut self.rows, spare + 2, spare, false);
        let _filled = meet(&mut self.rows, a, spare, true);
        let _met = meet(&mut self.rows, b, spare, false);
        let meets = meet(&mut self.rows, spare, spare + 1, true);
        let _emptied = meet(&mut self.rows, spare + 2, spare + 1, false);
        meets
    }

    /// Whether no name that has a register, told by its number among those that may be homes, interferes with a name.
    pub fn is_free(&mut self, register: u32, name: u32) -> bool
        requires register { register < 15 }
        requires name { name < self.old.names }
        ensures free { (result ≡ true) ↔ IsFreeFor self.old register name }
        ensures clashes { HaveSameClashes self.old self.new }
        ensures registers { HaveSameRegisters self.old self.new }
    {
        let names = self.names;
        if self.rows.get(names + (16 + register), name) {
            return false;
        }
        !self.meets(names + (1 + register), name)
    }

    /// A name has a register, told by its number among those that may be homes.
    pub fn take(&mut self, register: u32, name: u32)
        requires register { register < 15 }
        requires name { name < self.old.names }
        ensures clashes { HaveSameClashes self.old self.new }
        ensures taken { (r x : ℕ) → r < 15 → has self.new r x ≡ (has self.old r x || ((register == r) && (name == x))) }
    {
        let names = self.names;
        self.rows.set(names + (1 + register), name);
        let _changed = meet(&mut self.rows, name, names + (16 + register), true);
    }
}
