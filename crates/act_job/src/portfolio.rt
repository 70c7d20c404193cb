//! Reading portfolios.
ghost use Rattle.std.specs.Prelude.{◌≤◌, length};
ghost use Rattle.act_engine.specs.Reading.{Reads, read_of};
ghost use Rattle.act_io.specs.World.{World};
ghost use Rattle.act_job.specs.Reading.{portfolio_accepted, portfolio_reading};

use act_engine::{Failure, Halt, Refusal, fetch};
use act_io::Files;
use act_model::MOST_BYTES;
use act_portfolio::{Portfolio, PortfolioFault};
use std::alloc::Global;

/// The portfolio of the file of that name.
pub fn read_portfolio<'a, F: Files>(
    alloc: Global,
    files: &mut F,
    name: &'a str,
) -> Result<Portfolio, Halt<'a>>
    ensures { Reads (portfolio_reading name.now) (F.world files.old) (read_of result) (F.world files.new) }
{
    let bytes = fetch(alloc, files, name, MOST_BYTES)?;
    accept_portfolio(alloc, &bytes)
}

/// The portfolio of bytes, as of a file.
pub fn accept_portfolio(alloc: Global, bytes: &[u8]) -> Result<Portfolio, Halt<'static>>
    requires { length bytes.now ≤ MOST_BYTES }
    ensures { (world : World) → Reads (portfolio_accepted bytes.now) world (read_of result) world }
{
    match Portfolio::read(alloc, bytes) {
        Ok(portfolio) => Ok(portfolio),
        Err(
            PortfolioFault::Refused {
                number,
                place,
                what,
            },
        ) => Err(Halt::Refused(Refusal::Portfolio {
            number,
            place,
            what,
        })),
        Err(PortfolioFault::NoMemory) => Err(Halt::Stopped(Failure::Memory)),
    }
}
