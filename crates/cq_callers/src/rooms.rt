//! Reads into buffers.
use cq_endpoint::{Endpoint, NextInto};

/// Reads the next message of an endpoint into a buffer, and returns its bytes. Returns none if there is none, or if the buffer
/// is too small. It allocates nothing.
pub fn read_in<'a>(endpoint: &mut Endpoint, room: &'a mut [u8]) -> Option<&'a [u8]> {
    match endpoint.next_into(room) {
        NextInto::Message(_index, len) => Some(&room[..len as usize]),
        _ => None,
    }
}
