// The reply that names a fault.
ghost use Rattle.std.specs.Prelude.{◌≡◌, ◌≤◌, ◌+◌, ◌++◌, length};
ghost use Rattle.circular_buffer.specs.Buffer.{buffer};
ghost use Rattle.reply_framing.specs.Fault.{fault_reply, fault_status, fault_name};
ghost use Rattle.reply_framing.specs.Head.{status_line};

use crate::reason::reason;
use circular_buffer::HeapCircularBuffer;
use itoa::Buffer;
use rack_types::Fault;

/// Appends the reply that names a fault, whole. It has no body, and the connection closes behind it.
///
/// The ring has 256 free bytes. It takes no memory.
pub fn put_fault(fault: Fault, ring: &mut HeapCircularBuffer<u8>)
    requires room { length ring.old.items + 256 ≤ ring.old.capacity }
    ensures { ring.new ≡ buffer (ring.old.items ++ fault_reply fault) ring.old.capacity }
{
    put_status(fault_status(fault), ring);
    put(ring, b"x-puma-fault: ");
    put_name(fault, ring);
    put(ring, b"\r\ncontent-length: 0\r\nconnection: close\r\n\r\n");
}

// Appends the status line.
fn put_status(status: u32, ring: &mut HeapCircularBuffer<u8>)
    requires room { length ring.old.items + 90 ≤ ring.old.capacity }
    ensures line { ring.new ≡ buffer (ring.old.items ++ status_line status) ring.old.capacity }
    ensures short { length ring.new.items ≤ length ring.old.items + 90 }
{
    put(ring, b"HTTP/1.1 ");
    put(ring, Buffer::new().format(status).as_bytes());
    put(ring, b" ");
    put(ring, reason(status).as_bytes());
    put(ring, b"\r\n");
}

// Appends how the fault is spelled.
fn put_name(fault: Fault, ring: &mut HeapCircularBuffer<u8>)
    requires room { length ring.old.items + 50 ≤ ring.old.capacity }
    ensures name { ring.new ≡ buffer (ring.old.items ++ fault_name fault) ring.old.capacity }
    ensures short { length ring.new.items ≤ length ring.old.items + 50 }
{
    match fault {
        Fault::F(row) => {
            put(ring, b"F");
            put(ring, Buffer::new().format(row).as_bytes());
        }
        Fault::T1 => put(ring, b"T1"),
    }
}

// The status of a fault: 400, 408, 413, 431 or 501.
fn fault_status(fault: Fault) -> u32
    ensures { result ≡ fault_status fault }
{
    match fault {
        Fault::F(0 | 4 | 10) => 501,
        Fault::F(1 | 2 | 16) => 431,
        Fault::F(12 | 14) => 413,
        Fault::F(_) => 400,
        Fault::T1 => 408,
    }
}

// Appends a text for which there is room.
fn put(ring: &mut HeapCircularBuffer<u8>, text: &[u8])
    requires room { length ring.old.items + length text.now ≤ ring.old.capacity }
    ensures text { ring.new ≡ buffer (ring.old.items ++ text.now) ring.old.capacity }
    ensures count { length ring.new.items ≡ length ring.old.items + length text.now }
    ensures same { ring.new.capacity ≡ ring.old.capacity }
{
    ring.fill_from_slice(text);
}
