//! A pool of one node: a value is put in, no other, and taken out, again and again.
ghost use Rattle.std.specs.Prelude.{◌≡◌, length, IfOk, OnErr};
ghost use Rattle.node_pool.specs.Chains.{Stands};

use node_pool::{Place, Pool};
use rows_told::must;
use std::alloc::Global;
use std::test::Fail;

/// Puts a value in at the front; it comes back where the pool is full.
fn put(pool: &mut Pool<u64>, value: u64) -> Result<Place, u64>
    requires { length pool.old.chains ≡ 1 }
    ensures one { length pool.new.chains ≡ 1 }
    ensures stands { IfOk result (λ p. Stands pool.new 0 p.node) }
    ensures full { OnErr result (pool.new ≡ pool.old) }
{
    pool.insert_after(0, None, value)
}

/// Takes a value out.
fn take(pool: &mut Pool<u64>, place: Place) -> u64
    requires one { length pool.old.chains ≡ 1 }
    requires stands { Stands pool.old 0 place.node }
    ensures { length pool.new.chains ≡ 1 }
{
    pool.remove(0, place)
}

/// A value is put in and none after it, and is taken out.
fn in_and_out(pool: &mut Pool<u64>, value: u64) -> Result<(), Fail>
    requires { length pool.old.chains ≡ 1 }
    ensures { length pool.new.chains ≡ 1 }
{
    let Ok(place) = put(pool, value) else {
        return Err(Fail::new("room for a value"));
    };
    match put(pool, 9) {
        Err(9) => {}
        _ => return Err(Fail::new("a value more")),
    }
    must(take(pool, place) == value, "the value that comes out")
}

/// An empty pool of one chain, with room for one value.
fn one_node(alloc: Global) -> Result<Pool<u64>, Fail>
    ensures { IfOk result (λ pool. length pool.chains ≡ 1) }
{
    let mut pool = Pool::with_capacity(alloc, 0, 1)?;
    pool.reserve(1)?;
    Ok(pool)
}

/// A value is put in and taken out twice, and room for one is left.
fn twice_in_and_out(pool: &mut Pool<u64>) -> Result<(), Fail>
    requires { length pool.old.chains ≡ 1 }
{
    must(pool.spare() == 1, "room at the begin")?;
    in_and_out(pool, 7)?;
    in_and_out(pool, 8)?;
    pool.reserve(1)?;
    must(pool.spare() == 1, "room at the end")?;
    must(pool.first(0).is_none(), "a value that is left")
}

#[test]
fn a_pool_of_one_node(rt: HostRuntime) -> Result<(), Fail> {
    let mut pool = one_node(rt.alloc())?;
    twice_in_and_out(&mut pool)
}
