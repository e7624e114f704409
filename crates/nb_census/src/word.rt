//! The word of a headcount, with its steps.
ghost use Rattle.std.specs.Prelude.{◌≡◌, ℕ, ◌+◌, ◌/◌, ◌%◌, ◌^◌, ◌<◌, ◌≤◌, [], ◌∷◌, length, Some, IfOk};
ghost use Rattle.change_order.specs.Ticks.{share_of};
ghost use Rattle.change_order.specs.Growing.{with_change};
ghost use Rattle.nb_census.specs.Views.{first_view, first_part, with_look, share_after, takes_in, who_makes, who_comes};
ghost use Rattle.nb_census.specs.Kept.{StepTells, LookTells, CanChange, IsRoom};

use crate::rule::{Changes, Gathers, Looks, LooksAtAll, Makes, Rule};
use crate::view::View;
use atomic_table::{Seat, Table};
use std::alloc::{AllocError, Global};
use std::marker::Model;

/// The word that all seats of a headcount share. Contracts see it as the name that tells it from every other one.
#[derive(Drop)]
pub struct Word {
    table: Table<(), View, (), Rule, Global>,
}

impl Model for Word {
    ghost use Rattle.std.specs.Prelude.{◌≡◌};
    ghost use Rattle.atomic_table.specs.Seated.{TableId};

    ghost Value = { TableId };

    ghost view = { λ w. w.table.shared.table_id };

    ghost invariant = { λ w. w.table.shared.table_id.words ≡ 1 };
}

impl Word {
    /// A word of no bucket, with the maker's seat. Only want of memory is an error.
    pub fn new(alloc: Global) -> Result<(Word, Seat<(), View>), AllocError>
        ensures { IfOk result (λ r. (r.1.table_id ≡ r.0) × (r.1.me ≡ (first_view, []))) }
    {
        let (table, seat) = Table::of_words(alloc, &[0], &())?;
        Ok((Word { table }, seat))
    }

    /// One step, a `fetch_add` of `added`, changes the share of the seat's bucket.
    pub fn change(&self, seat: &mut Seat<(), View>, added: u64)
        requires table { seat.old.table_id ≡ self.now }
        requires one { seat.old.me.0.parts ≡ first_part seat.old.me.0.parts ∷ [] }
        requires room { CanChange added (first_part seat.old.me.0.parts).changes }
        ensures table { seat.new.table_id ≡ seat.old.table_id }
        ensures slots { seat.new.me.1 ≡ seat.old.me.1 }
        ensures step { (n : ℕ) × (seat.new.me.0.parts ≡ with_change (n / 2 ^ 32) (share_after added (share_of (first_part seat.old.me.0.parts).changes)) (first_part seat.old.me.0.parts) ∷ []) × StepTells n (first_part seat.old.me.0.parts) }
    {
        let table = &self.table;
        table.shared.fetch_add::<Changes>(seat, 0, added);
    }

    /// One step, a load, finds the sum of all shares.
    pub fn look(&self, seat: &mut Seat<(), View>) -> u32
        requires table { seat.old.table_id ≡ self.now }
        requires one { seat.old.me.0.parts ≡ first_part seat.old.me.0.parts ∷ [] }
        ensures table { seat.new.table_id ≡ seat.old.table_id }
        ensures slots { seat.new.me.1 ≡ seat.old.me.1 }
        ensures step { (n : ℕ) × (result ≡ n % 2 ^ 32) × (seat.new.me.0.parts ≡ with_look (n / 2 ^ 32) (n % 2 ^ 32) (first_part seat.old.me.0.parts) ∷ []) × StepTells n (first_part seat.old.me.0.parts) }
    {
        let table = &self.table;
        let found = table.shared.load::<Looks>(seat, 0);
        (found % (1 << 32)) as u32
    }

    /// The maker makes the seat of the next bucket.
    pub fn make(&self, maker: &mut Seat<(), View>) -> Seat<(), View>
        requires table { maker.old.table_id ≡ self.now }
        requires room { IsRoom maker.old.me.0 }
        ensures maker { (maker.new.table_id ≡ maker.old.table_id) × (maker.new.me ≡ (who_makes maker.old.me.0, maker.old.me.1)) }
        ensures seat { (result.table_id ≡ maker.old.table_id) × (result.me ≡ (who_comes maker.old.me.0, [])) }
    {
        let table = &self.table;
        table.shared.split_seat::<Makes>(maker)
    }

    /// The maker takes in a seat.
    pub fn take(&self, maker: &mut Seat<(), View>, seat: Seat<(), View>)
        requires maker { maker.old.table_id ≡ self.now }
        requires seat { (seat.table_id ≡ self.now) × (seat.me.1 ≡ []) }
        ensures { (maker.new.table_id ≡ maker.old.table_id) × (maker.new.me ≡ (takes_in maker.old.me.0 seat.me.0, maker.old.me.1)) }
    {
        let table = &self.table;
        table.shared.join_seat::<Gathers>(maker, seat);
    }

    /// The maker looks at what it has taken in, which tells what the rule says of it.
    pub fn look_at_all(&self, maker: &mut Seat<(), View>)
        requires { maker.old.table_id ≡ self.now }
        ensures { (maker.new.me ≡ maker.old.me) × LookTells maker.old.me.0 }
    {
        let table = &self.table;
        table.shared.load::<LooksAtAll>(maker, 0);
    }
}
