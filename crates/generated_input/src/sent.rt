//! The packets of a generated script.
ghost use Rattle.std.specs.Prelude.{◌≡◌, ◌<◌, IfOk};
ghost use Rattle.generated_input.specs.Draws.{next_state, drawn};
ghost use Rattle.generated_input.specs.Sent as of;

use crate::draws::Draws;
use crate::heard::neighbour_ip4;
use nb_base::{Items, Key, Moment};
use neigh_script::ScriptItem;
use std::alloc::{AllocError, Global};

/// How many packets there are.
const PACKETS: u32 = 20_000;

/// The packet at this place, counted from 0: the senders take turns, and a draw says to whom it goes.
fn sent_at(alloc: Global, draws: &mut Draws, place: u32) -> Result<ScriptItem, AllocError>
    requires { place < 20000 }
    ensures item { IfOk result (λ item. item ≡ of.sent_by place (drawn (next_state draws.old.state))) }
    ensures draws { draws.new.state ≡ next_state draws.old.state }
{
    let neighbour = draws.neighbour();
    let mut payload = Vec::new(alloc);
    payload.extend_from_slice(&place.to_be_bytes())?;
    Ok(ScriptItem::Send {
        at: Moment(5 * u64::from(place)),
        sender: 1 + place % 4,
        key: Key::V4(neighbour_ip4(neighbour)),
        payload: Items::from_vec(payload),
    })
}

/// All packets.
#[tactic(auto, using(crate::proofs::Growing::none_sent, crate::proofs::Growing::sent_more, crate::proofs::States::none_drawn, crate::proofs::States::one_more))]
pub(crate) fn sent(alloc: Global, draws: &mut Draws) -> Result<Items<ScriptItem>, AllocError>
    ensures { IfOk result (λ items. items ≡ of.sent 20000 draws.old.state) }
{
    let mut items = Items::new(alloc);
    for place in 0..PACKETS {
        items.push(sent_at(alloc, draws, place)?)?;
    }
    Ok(items)
}
