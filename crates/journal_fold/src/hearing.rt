//! Who hears the acts of a line.
ghost use Rattle.std.specs.Prelude.{◌≡◌, ◌-◌, ℕ, List, Option, None, Some, vec_len, vec_capacity};
ghost use Rattle.nud_machine.specs.declared.act.Act.{Act};
ghost use Rattle.journal_fold.specs.Hearing.{Hears};

use nud_machine::Act;

/// Who hears the acts of a line, key by key.
pub trait Hearer {
    // The acts that were heard, where they are kept.
    ghost heard: { Self → Option (List Act) };

    // For how many more there is room.
    ghost room: { Self → ℕ };

    /// Hears acts. They are kept where there is room for them.
    fn hear(&mut self, acts: &[Act])
        ensures { Hears (heard self.old) (room self.old) (heard self.new) (room self.new) acts.now };
}

/// Hears acts and keeps none.
#[derive(Drop)]
pub struct Nobody;

impl Hearer for Nobody {
    ghost heard = { λ _. None };

    ghost room = { λ _. 0 };

    fn hear(&mut self, _acts: &[Act]) {}
}

impl Hearer for Vec<Act> {
    ghost heard = { λ acts. Some acts.items };

    ghost room = { λ acts. vec_capacity acts - vec_len acts };

    fn hear(&mut self, acts: &[Act]) {
        let _kept = self.extend_from_slice(acts);
    }
}
