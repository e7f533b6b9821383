// A text that is a network's, beside that network.
ghost use Rattle.std.specs.Prelude.{◌≡◌, true};
ghost use Rattle.std.specs.Coded.{Coded-set};
ghost use Rattle.model.specs.Join.{is_network_text, network_in};

use calculus::network::Network;

#[derive(Clone, Copy)]
pub struct NetworkText<'a> {
    pub text: &'a [u8],
    pub network: Network,
    ghost sorted: { is_network_text text.now ≡ true },
    ghost given: { network ≡ network_in text.now } by { Coded-set network-code network (network_in text.now) },
}
