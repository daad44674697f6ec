// One request and its reply.
ghost use Rattle.std.specs.Prelude.{◌≡◌, length, IfOk, IfErr};
ghost use Rattle.range_client.specs.Demands.{HasRoom};
ghost use Rattle.range_client.specs.Exchanges.{Broke, Exchanged};

use crate::bodies::read_body;
use crate::demands::Demand;
use crate::faults::Fault;
use crate::fronts::Front;
use crate::judge::judge;
use byte_links::Link;

/// Sends the request, and reads the body of its reply to the front of `into`. Answers the size of the file.
pub(crate) fn exchange<L: Link>(
    link: &mut L,
    request: &[u8],
    demand: Demand,
    front: &mut Front,
    into: &mut [u8],
) -> Result<u64, Fault>
    requires { HasRoom demand (length into.old) }
    ensures ok { IfOk result (Exchanged demand request.now (L.shown link.old) (L.shown link.new) front.new.head into.new) }
    ensures err { IfErr result (Broke demand request.now (L.shown link.old) (L.shown link.new) front.new.head) }
{
    link.write(request)?;
    front.read(link, demand.least() as usize)?;
    let told = judge(front.head(), demand)?;
    read_body(link, front.rest(), &mut into[..told.count as usize])?;
    Ok(told.size)
}
