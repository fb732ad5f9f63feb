// One write of a ring.
ghost use Rattle.std.specs.Prelude.{◌≡◌, ◌<◌, ◌≤◌, length};
ghost use Rattle.rack_outside.specs.Link.{Writes, IsOneWrite, WritesAhead, next_place};
ghost use Rattle.conn_steps.specs.Steps.{Sends, SendsOff};

use circular_buffer::HeapCircularBuffer;
use rack_outside::{Link, LinkWrite};

/// Offers all bytes of the ring, and takes away those that the link took. A ring from which all was taken begins at
/// its front again.
pub fn send<L: Link>(link: &mut L, ring: &mut HeapCircularBuffer<u8>) -> LinkWrite
    requires { 0 < length ring.old.items }
    ensures sends { Sends result ring.old.items ring.new.items (L.seen link.old) (L.seen link.new) }
    ensures off { SendsOff result ring.old.items ring.new.items }
    ensures writes { Writes result ring.old.items (L.seen link.old) (L.seen link.new) }
    ensures ahead { WritesAhead result ring.old.items (L.seen link.old).ahead (next_place (L.seen link.old)) (L.seen link.new).ahead }
    ensures within { length ring.old.items ≤ ring.old.capacity }
    ensures room { ring.new.capacity ≡ ring.old.capacity }
    ensures keeps { IsOneWrite (L.seen link.old) (L.seen link.new) }
{
    let size = ring.len();
    let wrote = link.write(ring.make_contiguous());
    if let LinkWrite::Took(n) = wrote {
        let left = size - n;
        if left == 0 {
            ring.clear();
        } else {
            ring.truncate_front(left);
        }
    }
    wrote
}
