//! The response to FindCoordinator, version 0: `find_coordinator_head`, the host's bytes, and
//! `find_coordinator_port`.

ghost use Rattle.std.specs.Prelude.{◌≡◌, ◌++◌, length};
ghost use Rattle.frame_fields.specs.Fields.{encoded};
ghost use Rattle.responses.specs.FindCoordinator.{CoordinatorAnswer, find_coordinator_response, find_coordinator_value, find_coordinator_head_bytes, find_coordinator_port_bytes};

use byteorder::{BigEndian, ByteOrder};

/// The number of bytes before the host.
pub const FIND_COORDINATOR_HEAD_BYTES: usize = 8;

/// The number of bytes after the host.
pub const FIND_COORDINATOR_PORT_BYTES: usize = 4;

/// What stands before the host: the error code, 0 for none, the coordinator's node id, -1 where there is an
/// error, and the number of the host's bytes. Of a host of more than `MAX_STRING_BYTES` it can't be read.
#[tactic(auto, unfolding(frame_fields::specs::Fields::encoded))]
pub fn find_coordinator_head(
    code: i16,
    node_id: i32,
    host: &[u8],
) -> [u8; FIND_COORDINATOR_HEAD_BYTES]
    ensures { result ≡ find_coordinator_head_bytes code node_id (length host.now) }
{
    let mut bytes = [0; FIND_COORDINATOR_HEAD_BYTES];
    BigEndian::write_i16(&mut bytes[0..2], code);
    BigEndian::write_i32(&mut bytes[2..6], node_id);
    bytes[6..8].copy_from_slice(&host.len().to_be_bytes()[6..8]);
    bytes
}

/// What stands after the host: its port, -1 where there is an error.
#[tactic(auto, unfolding(frame_fields::specs::Fields::encoded))]
pub fn find_coordinator_port(port: i32) -> [u8; FIND_COORDINATOR_PORT_BYTES]
    ensures { result ≡ find_coordinator_port_bytes port }
{
    port.to_be_bytes()
}

/// The parts of a FindCoordinator response.
#[tactic(auto, using(crate::proofs::FindCoordinatorParts::find_coordinator_parts))]
pub fn find_coordinator_parts()
    ensures { (a : CoordinatorAnswer) → encoded find_coordinator_response (find_coordinator_value a)
        ≡ find_coordinator_head_bytes a.code a.node_id (length a.host)
        ++ (a.host ++ find_coordinator_port_bytes a.port) }
{}
