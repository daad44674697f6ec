// Laws over what a core does.
ghost use Rattle.range_server.specs.Pieces.{ForAnyEvents, ForAnyPieces};

/// However the bytes of a connection are cut into pieces, the replies are those to the bytes that were used. A law, which
/// does nothing when it is called.
pub fn pieces_make_no_difference()
    ensures { ForAnyPieces }
{}

/// Pieces that come on several connections, in any order, are answered on each as if it was the only one. A law, which
/// does nothing when it is called.
pub fn connections_stand_alone()
    ensures { ForAnyEvents }
{}
