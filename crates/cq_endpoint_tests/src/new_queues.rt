//! Endpoints of new queues.
ghost use Rattle.std.specs.Prelude.{◌≡◌, IfOk};

use cq_cycle::Roll;
use cq_endpoint::Endpoint;
use cq_fixtures::small_config;
use cq_layout::Shape;
use cq_model::Config;
use std::alloc::Global;
use std::test::Fail;

/// The first endpoint of a new queue with four cycles of 64 cells, each of a day, and the name "reader".
pub fn new_endpoint(alloc: Global) -> Result<Endpoint, Fail> {
    Ok(Endpoint::create(alloc, small_config(alloc, 4)?, 0)?)
}

/// The first endpoint of a new queue that rolls so, with this many cycles of 64 cells, and the name "reader".
pub fn rolling_endpoint(alloc: Global, roll: Roll, cycles: u32) -> Result<Endpoint, Fail> {
    let names = vec![in alloc; String::from_str(alloc, "reader")?]?;
    let config = Config::new(Shape::new(64, 8, 1)?, cycles, roll, 0, names)?;
    Ok(Endpoint::create(alloc, config, 0)?)
}

/// Two endpoints of a queue as `new_endpoint` makes it.
pub fn two_endpoints(alloc: Global) -> Result<(Endpoint, Endpoint), Fail>
    ensures { IfOk result (λ two. two.1.queue ≡ two.0.queue) }
{
    two_of(alloc, small_config(alloc, 4)?)
}

/// Two endpoints of a new queue of this configuration: the first one, and another that was split off from it.
pub fn two_of(alloc: Global, config: Config) -> Result<(Endpoint, Endpoint), Fail>
    ensures { IfOk result (λ two. two.1.queue ≡ two.0.queue) }
{
    let mut first = Endpoint::create(alloc, config, 0)?;
    let second = first.split()?;
    Ok((first, second))
}
