// The rules that a profile keeps.

/// A rule that a profile keeps, named as its refusal is printed. The rules stand in the order in which they are looked at.
#[derive(Clone, Copy, Debug, PartialEq, Eq)]
pub enum Rule {
    /// The text has more than 33,554,432 bytes.
    TooLong,
    /// The text has no JSON reading (RFC 8259), isn't UTF-8, or nests deeper than 127.
    NotJson,
    /// The document isn't an array.
    NotArray,
    /// The array has more than 4,096 entries.
    TooManyStreams,
    /// The entry isn't an object.
    BadEntry,
    /// `stream_id` is missing or not of its kind.
    BadStreamId,
    /// `stream` is missing or no object.
    BadStream,
    /// `enabled` is there and not of its kind.
    BadEnabled,
    /// `self_start` is there and not of its kind.
    BadSelfStart,
    /// `isg` is there and not of its kind.
    BadIsg,
    /// `next_stream_id` is there and not of its kind.
    BadNext,
    /// `action_count` is there and not of its kind.
    BadActionCount,
    /// `random_seed` is there and not of its kind.
    BadSeed,
    /// `packet` is missing or no object, or has neither `binary` nor `layers`.
    BadPacket,
    /// The packet's `binary` isn't of its kind.
    BadBinary,
    /// `layers` is no array, or a layer isn't an object of its table.
    BadLayer,
    /// A layer can't stand at its place.
    LayerOrder,
    /// The packet that the layers give is too long.
    LayersTooLong,
    /// `mode` is missing or no object, or its type isn't of its kind.
    BadMode,
    /// `rate`, its type or its value is missing or not of its kind.
    BadRate,
    /// A packet count or burst count of the mode is missing or not of its kind.
    BadCount,
    /// `ibg` is there and not of its kind.
    BadIbg,
    /// `flow_stats` isn't of its kind.
    BadFlowStats,
    /// `vm` is there and no object, or its `instructions` are there and no array.
    BadVm,
    /// There are more than 256 instructions.
    TooManyInstructions,
    /// The instruction is no object, or its type is missing or unknown.
    BadInstruction,
    /// An operand is missing or not of its kind.
    BadOperand,
    /// The template's length is outside 14 to 9,216 bytes.
    BadLength,
    /// The rate in millionths is 0.
    RateZero,
    /// The period is below 1 ns.
    RateTooHigh,
    /// A burst has no packets.
    CountZero,
    /// A variable's name is empty, or an earlier instruction gives it.
    VarName,
    /// A variable's range, step, size or values can't be.
    VarRange,
    /// A write or a trim names what no instruction of the stream gives.
    UnknownVariable,
    /// There is a second trim.
    TwoTrims,
    /// The trim's variable leaves the lengths of a packet.
    TrimRange,
    /// The packets have no room for the latency header.
    NoRoomForStamp,
    /// The template has no such field, or the field has fewer bytes than are written.
    BadField,
    /// A written place ends after the room.
    WriteRoom,
    /// There is no header to fix.
    BadFix,
    /// A write touches a byte on which the place of a fixed header rests.
    WriteOnShape,
    /// An earlier stream has the same id.
    DuplicateId,
    /// No stream has the id of the next stream.
    NoSuchStream,
    /// Two streams that start by themselves reach this stream.
    SharedStream,
    /// An earlier stream has the same flow number.
    DuplicateFlow,
}
