//! Ids of members.

ghost use Rattle.std.specs.Prelude.{◌≡◌, ◌<◌, IfOk};
ghost use Rattle.group_coordinator.specs.Members.{client_name, hex, hex_digit, member_id};

use frame_fields::is_topic_name;
use std::alloc::{AllocError, Allocator};

/// A digit of base 16.
fn hex_digit(digit: u8) -> u8
    requires { digit < 16 }
    ensures { result ≡ hex_digit digit }
{
    if digit < 10 { 48 + digit } else { 87 + digit }
}

/// A number in 16 digits of base 16.
fn hex_digits(number: u64) -> [u8; 16]
    ensures { result ≡ hex 16 number }
{
    let mut digits = [0; 16];
    let mut left = number;
    let mut at = 16;
    while at > 0 {
        at -= 1;
        digits[at] = hex_digit((left % 16) as u8);
        left /= 16;
    }
    digits
}

/// What stands for a client in an id: its own name, where a topic may have it.
fn client_name(client: &[u8]) -> &[u8]
    ensures { result.now ≡ client_name client.now }
{
    if is_topic_name(client) {
        client
    } else {
        b"member"
    }
}

/// The id of a member of this client, at this start of the broker, that joins by this number.
///
/// # Errors
///
/// Out of memory.
pub(crate) fn member_id<A: Allocator + Copy>(
    alloc: A,
    client: &[u8],
    start: u64,
    number: u64,
) -> Result<Vec<u8, A>, AllocError>
    ensures { IfOk result (λ id. id.items ≡ member_id client.now start number) }
{
    let mut id = Vec::from_slice(alloc, client_name(client))?;
    id.extend_from_slice(b"-")?;
    id.extend_from_slice(&hex_digits(start))?;
    id.extend_from_slice(b"-")?;
    id.extend_from_slice(&hex_digits(number))?;
    Ok(id)
}
