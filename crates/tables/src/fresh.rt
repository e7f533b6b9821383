// A fresh state.
ghost use Rattle.std.specs.Prelude.{◌≡◌};
ghost use Rattle.model.specs.State as spec;

use calculus::network::Network;
use calculus::number::ItemNumber;
use calculus::state::State;
use lookups::blank::{blank_row, unused};

// No node, no route, no users; every session unused.
pub fn fresh() -> State
    ensures { result ≡ spec.fresh }
{
    let session = unused(ItemNumber(0));
    let row = blank_row();
    State {
        opened: false,
        network: Network {
            nodes: [None; 32],
            routes: [None; 1056],
        },
        sessions: [session; 8],
        items: [None; 128],
        rows: [row; 256],
        users: [0; 2048],
    }
}
