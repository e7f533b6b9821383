// The model network, as node and route calls give it.

// What a node is. The form language calls a gateway `gate`.
#[derive(Clone, Copy, PartialEq, Eq)]
pub enum Kind {
    Host,
    Gateway,
}

// A node with its two sets of credentials: what it has, and what it needs from a peer.
#[derive(Clone, Copy)]
pub struct Node {
    pub kind: Kind,
    pub has: [bool; 64],
    pub needs: [bool; 64],
}

// Node a, if it was given, stands at a − 1; the next node of a's route for destination b, if there is one, at 33 × (a − 1) + b.
// Destination 0 is the default's.
#[derive(Clone, Copy)]
pub struct Network {
    pub nodes: [Option<Node>; 32],
    pub routes: [Option<u8>; 1056],
}

// What the routes of one node give for another: the next node of a route to it, or of the default route.
#[derive(Clone, Copy)]
pub enum NextHop {
    Exact(u8),
    Default(u8),
}
