// Laws of the bus rule: neither order nor names of sockets matter.
ghost use Rattle.data_bus.specs.SocketsLaw.{SocketsLaw};
ghost use Rattle.f8_spec.specs.OrderLaw.{OrderLaw};

/// The order law of the bus rule: rearrange the chips of a rack and rename their sockets, no two alike, and the acknowledged one with
/// them. The byte is the same, and so are the served socket, renamed, or the kind of fault with its parties. This call does nothing; its
/// contract is the law.
pub fn order_law()
    ensures { OrderLaw }
{}

/// The chips that drive or take come by ascending sockets, and so do those that stand by, of which the rule tells the first.
/// This call does nothing; its contract is the law.
pub fn sockets_law()
    ensures { SocketsLaw }
{}
