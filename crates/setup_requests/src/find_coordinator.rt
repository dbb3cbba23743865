//! FindCoordinator: which broker keeps a group's offsets.

ghost use Rattle.std.specs.Prelude.{◌≡◌, OnOk, OnErr};
ghost use Rattle.request_frames.specs.FindCoordinator.{find_coordinator_view};
ghost use Rattle.answering.specs.Work.{MayAnswer};
ghost use Rattle.answering.specs.Doing.{DoesWork};
ghost use Rattle.answering.specs.Once.{WritesOnce};
ghost use Rattle.setup_requests.specs.FindCoordinator.{this_coordinator, find_coordinator_work, find_coordinator_sent};

use answering::{ErrorCode, respond_once};
use broker_state::{BrokerState, Role};
use request_frames::FindCoordinatorRequest;
use responses::find_coordinator::{
    find_coordinator_head, find_coordinator_parts, find_coordinator_port,
};
use segment::BatchStore;
use std::alloc::{AllocError, Allocator};

/// What is answered to a FindCoordinator request.
#[derive(Clone, Copy)]
struct CoordinatorFound<'n> {
    code: i16,
    node_id: i32,
    host: &'n [u8],
    port: i32,
}

/// Whether the broker is the coordinator of a group.
fn coordinates<S: BatchStore>(state: &BrokerState<S>, group: &[u8]) -> Result<(), ErrorCode>
    ensures { DoesWork (find_coordinator_work state.now group.now)
        (λ _. this_coordinator state.now.config) result state.now state.now }
{
    if group.is_empty() {
        return Err(ErrorCode::InvalidGroupId);
    }
    match state.role() {
        Role::Leader => Ok(()),
        Role::Follower => Err(ErrorCode::NotLeader),
    }
}

/// The coordinator of a group: the broker itself, or none and the reason.
fn coordinator<'n, S: BatchStore>(state: &'n BrokerState<S>, group: &[u8]) -> CoordinatorFound<'n>
    ensures { MayAnswer (find_coordinator_work state.now group.now) state.now
        (record {
          code = result.code;
          node_id = result.node_id;
          host = result.host.now;
          port = result.port;
        }) state.now }
{
    match coordinates(state, group) {
        Ok(()) => CoordinatorFound {
            code: 0,
            node_id: state.node_id(),
            host: state.host(),
            port: i32::from(state.port()),
        },
        Err(fault) => CoordinatorFound {
            code: fault.number(),
            node_id: -1,
            host: &[],
            port: -1,
        },
    }
}

/// Appends the response to a FindCoordinator request. It changes nothing else.
///
/// # Errors
///
/// `AllocError` where there is no memory for the response; the output is then as before.
pub fn reply_to_find_coordinator<S: BatchStore, A: Allocator + Copy>(
    state: &BrokerState<S>,
    correlation: i32,
    request: &FindCoordinatorRequest<'_>,
    out: &mut Vec<u8, A>,
) -> Result<(), AllocError>
    ensures responds { OnOk result (WritesOnce (find_coordinator_sent correlation)
        (find_coordinator_work state.now (find_coordinator_view request.now)) state.now
        out.old.items out.new.items state.now) }
    ensures unchanged_on_error { OnErr result (out.new.items ≡ out.old.items) }
{
    // Called for its contract alone: the parts make the response.
    find_coordinator_parts();
    let answer = coordinator(state, request.group);
    let head = find_coordinator_head(answer.code, answer.node_id, answer.host);
    let port = find_coordinator_port(answer.port);
    respond_once(correlation, &head, answer.host, &port, out)
}
