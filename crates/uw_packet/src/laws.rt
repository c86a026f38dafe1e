// Laws of packets and blocks, over the definitions alone: each is proved, and its function does nothing.
ghost use Rattle.std.specs.Prelude.{◌≡◌, ◌<◌, ◌≤◌, ◌%◌, ◌⊎◌, ℕ, List, Option, Some, Result, Ok, Err, length};
ghost use Rattle.uw_base.specs.declared.variables.Pair.{Pair};
ghost use Rattle.uw_packet.specs.BlockReads.{AreBytes, vars_block};
ghost use Rattle.uw_packet.specs.Blocks.{AreShort, BreaksAt, IsArrayBlock, IsVarsBlock, array_of, array_read, texts_of_pairs, vars_read};
ghost use Rattle.uw_packet.specs.Packet.{IsPacket};
ghost use Rattle.uw_packet.specs.PacketFront.{AnswersFront, packet_front};
ghost use Rattle.uw_outside.specs.Streams.{Inflow};
ghost use Rattle.uw_packet.specs.Reads.{ReadsPacket};
ghost use Rattle.uw_packet.specs.declared.packet.Header.{Header};
ghost use Rattle.uw_packet.specs.declared.packet.Packet.{Packet};
ghost use Rattle.uw_packet.specs.declared.packet.PacketFault.{PacketFault};

/// An array block is read as its texts.
pub fn array_is_read()
    ensures { (block : List ℕ) (texts : List (List ℕ)) → IsArrayBlock block texts → array_read block ≡ Ok texts }
{}

/// What is read as texts is the array of just these texts.
pub fn read_texts_are_the_array()
    ensures { (block : List ℕ) (texts : List (List ℕ)) → AreBytes block → array_read block ≡ Ok texts → IsArrayBlock block texts }
{}

/// A block that is refused breaks at the place: there ends the longest array at its front.
pub fn refused_block_breaks()
    ensures { (block : List ℕ) (at : ℕ) → AreBytes block → array_read block ≡ Err at → (texts : List (List ℕ)) × BreaksAt block texts at × (at < length block) }
{}

/// A block is the array of one list of texts at most.
pub fn texts_are_unique()
    ensures { (block : List ℕ) (texts others : List (List ℕ)) → IsArrayBlock block texts → IsArrayBlock block others → texts ≡ others }
{}

/// The array of the keys and values of pairs is read as these pairs.
pub fn pairs_are_read()
    ensures { (pairs : List Pair) → AreShort (texts_of_pairs pairs) → vars_read (array_of (texts_of_pairs pairs)) ≡ Ok pairs }
{}

/// What is read as pairs is the array of just their keys and values.
pub fn read_pairs_are_the_block()
    ensures { (block : List ℕ) (pairs : List Pair) → AreBytes block → vars_read block ≡ Ok pairs → IsVarsBlock block pairs }
{}

/// A vars block that is refused breaks at the place, or it is the array of an odd number of texts
/// and the place is its end.
pub fn refused_pairs_break()
    ensures { (block : List ℕ) (at : ℕ) → AreBytes block → vars_read block ≡ Err at → ((texts : List (List ℕ)) × BreaksAt block texts at × (at < length block)) ⊎ ((texts : List (List ℕ)) × IsArrayBlock block texts × (length texts % 2 ≡ 1) × (at ≡ length block)) }
{}

/// A block that was written is the array of the pairs, and is read as these pairs.
pub fn written_block_is_read()
    ensures { (pairs : List Pair) (block : List ℕ) → vars_block pairs ≡ Some block → IsVarsBlock block pairs × (length block < 65536) × (vars_read block ≡ Ok pairs) }
{}

/// Bytes begin with one packet at most.
pub fn packet_is_unique()
    ensures { (bytes : List ℕ) (head other : Header) (block body rest left : List ℕ) → IsPacket bytes head block rest → IsPacket bytes other body left → (head ≡ other) × (block ≡ body) × (rest ≡ left) }
{}

/// Over a source that tells what it has, a packet that is read, and every refusal but a failed read
/// and want of memory, is what stands at the front of the bytes.
pub fn answers_are_the_front()
    ensures { (r : Inflow) (limit : ℕ) (bytes : List ℕ) (answer : Result (Option Packet) PacketFault) → r.before ≡ Some bytes → ReadsPacket r limit answer → AnswersFront r (packet_front limit bytes) answer }
{}

/// A packet stands at the front exactly where the bytes begin with a packet whose block is within the limit.
pub fn front_is_a_packet()
    ensures is_packet { (limit : ℕ) (bytes : List ℕ) (packet : Packet) (rest : List ℕ) → AreBytes bytes → packet_front limit bytes ≡ Ok (Some (packet, rest)) → IsPacket bytes packet.head packet.block rest × (packet.head.size ≤ limit) }
    ensures is_front { (limit : ℕ) (bytes : List ℕ) (head : Header) (block rest : List ℕ) → head.size ≤ limit → IsPacket bytes head block rest → packet_front limit bytes ≡ Ok (Some (record { head = head; block = block }, rest)) }
{}
