ghost use Rattle.std.specs.Prelude.{◌≡◌, ◌<◌, ◌≤◌, ◌+◌, ◌-◌, ◌^◌, ◌++◌, true, false, length, vec_len, vec_capacity, slice_get, slice_index_or, [], ◌*◌, OnOk, IfSome, IfNone};
ghost use Rattle.std.specs.List.{list_any};
ghost use Rattle.resource_reqs.specs.Resources.{clashes};
ghost use Rattle.range_arbiter.specs.Pairs.{pairs_with, res_list};
ghost use Rattle.range_arbiter.specs.Orders.{In, IsOrdered, AreOfKind};
ghost use Rattle.range_arbiter.specs.Blocks.{pairs_in, AreSome, IsPlace};
ghost use Rattle.range_arbiter.specs.Arbiters.{AreStocked};

use crate::block::Block;
use crate::order::comes_before;
use crate::room::Room;
use resource_reqs::{Owner, Res, WantOfMemory};

/// The place of the last block whose first pair does not come after this one, or of the first block. Cost: the logarithm of
/// the number of blocks.
fn block_of(blocks: &[Block], pair: &(Owner, Res)) -> usize
    requires any { 0 < length blocks.now }
    requires some { AreSome blocks.now }
    requires in_order { IsOrdered (pairs_in blocks.now) }
    ensures within { result < length blocks.now }
    ensures place { IsPlace blocks.now pair.now result }
{
    let last = blocks.len() - 1;
    if !comes_before(pair, blocks[last].first()) {
        return last;
    }
    let beyond = blocks.partition_point(|block| !comes_before(pair, block.first()));
    beyond.saturating_sub(1)
}

/// How many blocks and rooms are enough for so many pairs, whatever is put and taken: one where they fit into one block; else one
/// for each sixteen and one more, since two neighbours that do not fit into one block have more than 32 pairs.
pub fn rooms_for(pairs: u32) -> usize
    ensures one { 0 < result }
    ensures enough { 32 < pairs → pairs + 16 ≤ 16 * result }
    ensures few { result < 2 ^ 32 }
{
    if pairs <= 32 {
        return 1;
    }
    (pairs as usize).div_ceil(16) + 1
}

/// Takes rooms, for which there is place in the list, until there are so many.
fn take_rooms(stock: &mut Vec<Room>, rooms: usize) -> Result<(), WantOfMemory>
    requires { rooms ≤ vec_capacity stock.old }
    ensures ok { OnOk result (rooms ≤ vec_len stock.new) }
    ensures most { vec_len stock.old ≤ rooms → vec_len stock.new ≤ rooms }
    ensures grows { vec_len stock.old ≤ vec_len stock.new }
    ensures place { vec_capacity stock.old ≤ vec_capacity stock.new }
{
    let alloc = *stock.allocator();
    'rooms: while stock.len() < rooms {
        let room = Room::new(alloc)?;
        let _ = stock.push(room);
    }
    Ok(())
}

/// Takes rooms until there are so many. Cost: that of the rooms that are taken.
pub fn stock_up(
    blocks: &mut Vec<Block>,
    stock: &mut Vec<Room>,
    rooms: usize,
) -> Result<(), WantOfMemory>
    requires few { rooms < 2 ^ 32 }
    requires block_place { vec_len blocks.old + vec_len stock.old ≤ vec_capacity blocks.old }
    requires room_place { vec_len blocks.old + vec_len stock.old ≤ vec_capacity stock.old }
    ensures ok { OnOk result (rooms ≤ vec_len stock.new) }
    ensures pairs { blocks.new.items ≡ blocks.old.items }
    ensures count { vec_len blocks.new ≡ vec_len blocks.old }
    ensures grows { vec_len stock.old ≤ vec_len stock.new }
    ensures block_place { vec_len blocks.new + vec_len stock.new ≤ vec_capacity blocks.new }
    ensures room_place { vec_len blocks.new + vec_len stock.new ≤ vec_capacity stock.new }
{
    if stock.len() < rooms {
        blocks.reserve(rooms)?;
        stock.reserve(blocks.len() + (rooms - stock.len()))?;
        take_rooms(stock, rooms)?;
    }
    Ok(())
}

/// The place of the first block whose pairs and those of the block in front of it go into one block. Cost: the number of blocks.
fn light(blocks: &[Block]) -> Option<usize>
    requires { AreSome blocks.now }
    ensures some { IfSome result (λ at. (0 < at) × (at < length blocks.now) × (length (slice_index_or blocks.now (at - 1) []) + length (slice_index_or blocks.now at []) ≤ 32)) }
    ensures none { IfNone result (33 * length blocks.now ≤ 2 * length (pairs_in blocks.now) + 32) }
{
    let mut front = 32;
    for at in 0..blocks.len() {
        let count = blocks[at].pairs().len();
        if front + count <= 32 {
            return Some(at);
        }
        front = count;
    }
    None
}

/// Where no room is left, two light neighbours go into one block, which leaves a room: where a block is full and a pair is
/// spare, there are such two. Cost: the number of blocks, and nothing where a room is left.
fn join_light(blocks: &mut Vec<Block>, stock: &mut Vec<Room>, spare: u32)
    requires stocked { AreStocked blocks.old stock.old spare }
    ensures stocked { AreStocked blocks.new stock.new spare }
    ensures pairs { pairs_in blocks.new.items ≡ pairs_in blocks.old.items }
    ensures room { 0 < spare → 32 ≤ length (pairs_in blocks.old.items) → 0 < vec_len stock.new }
{
    if !stock.is_empty() {
        return;
    }
    if let Some(at) = light(blocks) {
        let back = blocks.remove(at);
        let room = blocks[at - 1].join(back);
        let _ = stock.push(room);
    }
}

/// Puts a pair in at its place. It takes no memory. Cost: the logarithm of the number of blocks, and the number of pairs of one;
/// where that is full, or no room is left, the number of blocks.
pub fn put_pair(blocks: &mut Vec<Block>, stock: &mut Vec<Room>, spare: &mut u32, pair: (Owner, Res))
    requires in_order { IsOrdered (pairs_in blocks.old.items) }
    requires kinds { AreOfKind pair.1.kind (pairs_in blocks.old.items) }
    requires stocked { AreStocked blocks.old stock.old spare.old }
    requires spare { 0 < spare.old }
    ensures pairs { pairs_in blocks.new.items ≡ pairs_with (pairs_in blocks.old.items) pair }
    ensures stocked { AreStocked blocks.new stock.new spare.new }
    ensures spare { spare.new + 1 ≡ spare.old }
{
    join_light(blocks, stock, *spare);
    *spare -= 1;
    if blocks.is_empty() {
        if let Some(room) = stock.pop() {
            let _ = blocks.push(Block::single(room, pair));
        }
        return;
    }
    let at = block_of(blocks, &pair);
    let block = &mut blocks[at];
    let place = block.place_of(&pair);
    if block.pairs().len() < 32 {
        block.put(place, pair);
        return;
    }
    match stock.pop() {
        Some(room) => {
            let back = block.put_parting(place, pair, room);
            let _ = blocks.insert(at + 1, back);
        }
        None => unreachable!(),
    }
}

/// Takes a pair out. It takes no memory. Cost: the logarithm of the number of blocks, and the number of pairs of one; where that
/// has no other pair, the number of blocks.
pub fn take_pair(
    blocks: &mut Vec<Block>,
    stock: &mut Vec<Room>,
    spare: &mut u32,
    pair: &(Owner, Res),
)
    requires in_order { IsOrdered (pairs_in blocks.old.items) }
    requires kinds { AreOfKind pair.now.1.kind (pairs_in blocks.old.items) }
    requires held { In pair.now (pairs_in blocks.old.items) }
    requires stocked { AreStocked blocks.old stock.old spare.old }
    requires spare { spare.old + 1 < 2 ^ 32 }
    ensures pairs { pairs_in blocks.old.items ≡ pairs_with (pairs_in blocks.new.items) pair.now }
    ensures stocked { AreStocked blocks.new stock.new spare.new }
    ensures spare { spare.new ≡ spare.old + 1 }
{
    *spare += 1;
    let at = block_of(blocks, pair);
    let block = &mut blocks[at];
    let place = block.place_of(pair);
    if block.pairs().len() > 1 {
        block.take(place - 1);
        return;
    }
    let alone = blocks.remove(at);
    let _ = stock.push(alone.emptied());
}

/// Whether the resource clashes with a pair of one of the blocks. Cost: the number of blocks, and the pairs of those that it
/// meets.
pub fn clashes(blocks: &[Block], res: &Res) -> bool
    ensures { result ≡ list_any (clashes res.now) (res_list (pairs_in blocks.now)) }
{
    for block in blocks {
        if block.clashes(res) {
            return true;
        }
    }
    false
}

/// The pair at a position. Cost: the number of blocks.
pub fn nth(blocks: &[Block], at: u64) -> Option<(Owner, Res)>
    ensures { result ≡ slice_get (pairs_in blocks.now) at }
{
    let mut left = at;
    for block in blocks {
        let count = block.pairs().len() as u64;
        if left < count {
            return Some(block.pairs()[left as usize]);
        }
        left -= count;
    }
    None
}

/// Appends the pairs. What was there stays, whatever is answered. Cost: the number of pairs.
pub fn push_onto(blocks: &[Block], list: &mut Vec<(Owner, Res)>) -> Result<(), WantOfMemory>
    ensures { OnOk result (list.new.items ≡ list.old.items ++ pairs_in blocks.now) }
{
    for block in blocks {
        list.extend_from_slice(block.pairs())?;
    }
    Ok(())
}
