//! What holds of all packets, as contracts of functions that do nothing.
ghost use Rattle.std.specs.Prelude.{◌≡◌, ◌<◌, ℕ, List, None, slice_index};
ghost use Rattle.ch_packet.specs.Fault.{fault_of};
ghost use Rattle.ch_packet.specs.Packet.{IsPacket};
ghost use Rattle.ch_packet.specs.Spelling.{spelling};
ghost use Rattle.ch_packet.specs.declared.packet.Packet.{Packet};

/// The bytes of each packet are accepted.
pub fn spellings_are_accepted()
    ensures { (packet : Packet) → IsPacket packet → fault_of (spelling packet) ≡ None }
{}

/// Bytes that are accepted spell a packet.
pub fn accepted_bytes_are_spelled()
    ensures { (bytes : List ℕ) → ((i : ℕ) → slice_index bytes i < 256) → fault_of bytes ≡ None →
        (packet : Packet) × IsPacket packet × (spelling packet ≡ bytes) }
{}

/// Bytes spell at most one packet.
pub fn packets_are_spelled_once()
    ensures { (a b : Packet) → IsPacket a → IsPacket b → spelling a ≡ spelling b → a ≡ b }
{}
