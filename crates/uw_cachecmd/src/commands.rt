// A block as a command.
ghost use Rattle.std.specs.Prelude.{◌≡◌, ◌<◌, ◌^◌, ℕ, [], List, length, slice_index_or, take, Option, IfOk, IfSome};
ghost use Rattle.std.specs.List.{position_from};
ghost use Rattle.std.specs.Str.{bytes_eq};
ghost use Rattle.uw_model.specs.declared.calls.Call.TheVariants as calls;
ghost use Rattle.uw_packet.specs.Blocks.{array_of, array_read, vars_read};
ghost use Rattle.uw_cachecmd.specs.Given.{GivesAsk, AsksOneOf};
ghost use Rattle.uw_cachecmd.specs.Commands.{IsCacheModifier, amount_of, ask_of, asked, cache_of, call_of, command_block_ask, kind_of, seconds_of, set_of};

use std::alloc::Global;
use uw_base::{Bytes, BytesList, Memory, Vars, read_decimal, read_signed};
use uw_model::{Ask, Call, MathOp};
use uw_packet::{PacketFault, read_array, read_vars};

/// Why a block asks nothing.
#[derive(Clone, Copy, Debug, PartialEq, Eq)]
pub enum CmdFault {
    /// The block is out of its grammar, at this place.
    BadBlock { at: u32 },
    /// `cmd` is no command.
    UnknownCommand,
    /// No cache has the name, or none is configured.
    UnknownCache,
    /// The seconds or the amount cannot be read.
    BadNumber,
    /// No memory was left.
    Memory,
}

impl From<Memory> for CmdFault {
    ghost use Rattle.uw_cachecmd.specs.declared.commands.CmdFault.TheVariants as faults;

    ghost from_gives = { λ _ fault. fault ≡ faults.Memory };

    fn from(_: Memory) -> CmdFault {
        CmdFault::Memory
    }
}

/// What a command block asks for.
#[derive(Clone, Copy, Debug, PartialEq, Eq)]
pub enum Kind {
    Get,
    Set,
    Update,
    Del,
    Exists,
    Clear,
    Num,
    Math(MathOp),
    Keys,
    Sweep,
}

/// What the block of a packet of modifier1 111 asks, by its modifier2: 0 is a get and 2 a del, of the block as the key;
/// 1 is a set, 200 a command block. `names` are the caches' names in their order. Where several refusals fit, the first
/// of `CmdFault` is given; only `Memory` may come before any.
pub fn command(alloc: Global, m2: u8, block: &[u8], names: &BytesList) -> Result<Ask, CmdFault>
    requires built { IsCacheModifier m2 }
    requires short { length block.now < 2 ^ 32 }
    requires few { length names.now < 2 ^ 32 }
    ensures ask { GivesAsk result (ask_of m2 block.now names.now) }
    ensures known { AsksOneOf (length names.now) result }
{
    let names = names.as_slice();
    match m2 {
        0 => get(alloc, block, names),
        1 => set(alloc, block, names),
        2 => del(alloc, block, names),
        _ => command_block(alloc, block, names),
    }
}

fn get(alloc: Global, block: &[u8], names: &[Bytes]) -> Result<Ask, CmdFault>
    requires { length names.now < 2 ^ 32 }
    ensures ask { GivesAsk result (asked (cache_of names.now []) (calls.Get block.now)) }
    ensures known { AsksOneOf (length names.now) result }
{
    let Some(cache) = cache_named(names, &[]) else {
        return Err(CmdFault::UnknownCache);
    };
    let key = Bytes::from_slice(alloc, block)?;
    Ok(Ask::Cache {
        cache,
        call: Call::Get { key },
    })
}

fn del(alloc: Global, block: &[u8], names: &[Bytes]) -> Result<Ask, CmdFault>
    requires { length names.now < 2 ^ 32 }
    ensures ask { GivesAsk result (asked (cache_of names.now []) (calls.Del block.now)) }
    ensures known { AsksOneOf (length names.now) result }
{
    let Some(cache) = cache_named(names, &[]) else {
        return Err(CmdFault::UnknownCache);
    };
    let key = Bytes::from_slice(alloc, block)?;
    Ok(Ask::Cache {
        cache,
        call: Call::Del { key },
    })
}

// A set: key, value, and where they are given the seconds and the cache's name.
fn set(alloc: Global, block: &[u8], names: &[Bytes]) -> Result<Ask, CmdFault>
    requires short { length block.now < 2 ^ 32 }
    requires few { length names.now < 2 ^ 32 }
    ensures ask { GivesAsk result (set_of names.now block.now (array_read block.now)) }
    ensures known { AsksOneOf (length names.now) result }
{
    let texts = match read_array(alloc, block) {
        Ok(texts) => texts.into_vec(),
        Err(PacketFault::BadBlock { at }) => return Err(CmdFault::BadBlock { at }),
        Err(_) => return Err(CmdFault::Memory),
    };
    if texts.len() < 2 {
        return Err(CmdFault::BadBlock {
            at: block.len() as u32,
        });
    }
    if texts.len() > 4 {
        return Err(CmdFault::BadBlock {
            at: array_len(&texts[..4]),
        });
    }
    let Some(cache) = cache_named(names, text_at(&texts, 3)) else {
        return Err(CmdFault::UnknownCache);
    };
    let Some(ttl) = seconds(text_at(&texts, 2)) else {
        return Err(CmdFault::BadNumber);
    };
    let mut texts = texts;
    let value = texts.remove(1);
    let key = texts.remove(0);
    Ok(Ask::Cache {
        cache,
        call: Call::Set { key, value, ttl },
    })
}

// The text at a place, or no bytes.
fn text_at(texts: &[Bytes], place: usize) -> &[u8]
    ensures { result.now ≡ slice_index_or texts.now place [] }
{
    match texts.get(place) {
        Some(text) => text.as_slice(),
        None => &[],
    }
}

// The length of the array of texts, in bytes.
fn array_len(texts: &[Bytes]) -> u32
    requires { length (array_of texts.now) < 2 ^ 32 }
    ensures { result ≡ length (array_of texts.now) }
{
    let mut len = 0;
    for text in texts {
        len += 2 + text.len() as u32;
    }
    len
}

// The number of the cache of a name.
fn cache_named(names: &[Bytes], name: &[u8]) -> Option<u32>
    requires { length names.now < 2 ^ 32 }
    ensures place { result ≡ cache_of names.now name.now }
    ensures known { IfSome result (λ place. place < length names.now) }
{
    if name.is_empty() {
        if names.is_empty() { None } else { Some(0) }
    } else {
        place_of(names, name)
    }
}

// The place of a name among names.
fn place_of(names: &[Bytes], name: &[u8]) -> Option<u32>
    requires { length names.now < 2 ^ 32 }
    ensures place { result ≡ position_from (λ other. bytes_eq other name.now) 0 names.now }
    ensures known { IfSome result (λ place. place < length names.now) }
{
    for (place, other) in names.iter().enumerate() {
        if other.as_slice() == name {
            return Some(place as u32);
        }
    }
    None
}

// The seconds that a text gives.
fn seconds(text: &[u8]) -> Option<u64>
    ensures { result ≡ seconds_of text.now }
{
    if text.is_empty() {
        Some(0)
    } else {
        read_decimal(text)
    }
}

// A command block: its variables say the command, the cache and the rest.
fn command_block(alloc: Global, block: &[u8], names: &[Bytes]) -> Result<Ask, CmdFault>
    requires short { length block.now < 2 ^ 32 }
    requires few { length names.now < 2 ^ 32 }
    ensures ask { GivesAsk result (command_block_ask names.now (vars_read block.now)) }
    ensures known { AsksOneOf (length names.now) result }
{
    match read_vars(alloc, block) {
        Ok(vars) => commanded(alloc, &vars, names),
        Err(PacketFault::BadBlock { at }) => Err(CmdFault::BadBlock { at }),
        Err(_) => Err(CmdFault::Memory),
    }
}

// What the variables of a command block ask. Other variables are passed over.
fn commanded(alloc: Global, vars: &Vars, names: &[Bytes]) -> Result<Ask, CmdFault>
    requires { length names.now < 2 ^ 32 }
    ensures ask { GivesAsk result (command_block_ask names.now (Ok vars.now)) }
    ensures known { AsksOneOf (length names.now) result }
{
    let Some(kind) = kind_named(vars.get(b"cmd")) else {
        return Err(CmdFault::UnknownCommand);
    };
    let Some(cache) = cache_named(names, vars.get(b"cache")) else {
        return Err(CmdFault::UnknownCache);
    };
    let Some(ttl) = seconds(vars.get(b"expires")) else {
        return Err(CmdFault::BadNumber);
    };
    let Some(by) = amount(vars.get(b"amount")) else {
        return Err(CmdFault::BadNumber);
    };
    let call = call_for(alloc, kind, vars.get(b"key"), vars.get(b"value"), ttl, by)?;
    Ok(Ask::Cache { cache, call })
}

// What a text commands.
fn kind_named(text: &[u8]) -> Option<Kind>
    ensures { result ≡ kind_of text.now }
{
    match text {
        b"get" => Some(Kind::Get),
        b"set" => Some(Kind::Set),
        b"update" => Some(Kind::Update),
        b"del" => Some(Kind::Del),
        b"exists" => Some(Kind::Exists),
        b"clear" => Some(Kind::Clear),
        b"num" => Some(Kind::Num),
        b"inc" => Some(Kind::Math(MathOp::Inc)),
        b"dec" => Some(Kind::Math(MathOp::Dec)),
        b"mul" => Some(Kind::Math(MathOp::Mul)),
        b"div" => Some(Kind::Math(MathOp::Div)),
        b"keys" => Some(Kind::Keys),
        b"sweep" => Some(Kind::Sweep),
        _ => None,
    }
}

// The call of a command, with copies of the key and the value where it has them.
fn call_for(
    alloc: Global,
    kind: Kind,
    key: &[u8],
    value: &[u8],
    ttl: u64,
    by: i64,
) -> Result<Call, Memory>
    ensures { IfOk result (λ call. call ≡ call_of kind key.now value.now ttl by) }
{
    match kind {
        Kind::Get => Ok(Call::Get {
            key: Bytes::from_slice(alloc, key)?,
        }),
        Kind::Set => Ok(Call::Set {
            key: Bytes::from_slice(alloc, key)?,
            value: Bytes::from_slice(alloc, value)?,
            ttl,
        }),
        Kind::Update => Ok(Call::Update {
            key: Bytes::from_slice(alloc, key)?,
            value: Bytes::from_slice(alloc, value)?,
            ttl,
        }),
        Kind::Del => Ok(Call::Del {
            key: Bytes::from_slice(alloc, key)?,
        }),
        Kind::Exists => Ok(Call::Exists {
            key: Bytes::from_slice(alloc, key)?,
        }),
        Kind::Clear => Ok(Call::Clear),
        Kind::Num => Ok(Call::Num {
            key: Bytes::from_slice(alloc, key)?,
        }),
        Kind::Math(op) => Ok(Call::Math {
            op,
            key: Bytes::from_slice(alloc, key)?,
            by,
            ttl,
        }),
        Kind::Keys => Ok(Call::Keys),
        Kind::Sweep => Ok(Call::Sweep),
    }
}

// The amount that a text gives.
fn amount(text: &[u8]) -> Option<i64>
    ensures { result ≡ amount_of text.now }
{
    if text.is_empty() {
        Some(1)
    } else {
        read_signed(text)
    }
}
