//! The database that a script works on once its setup is closed.
ghost use Rattle.std.specs.Prelude.{◌≡◌, true, IfOk};
ghost use Rattle.strip_script.specs.Stages.{IsSetUp, Opens};

use std::alloc::{AllocError, Global};
use strip_catalog::Catalog;
use strip_engine::{Engine, Job, Limits};

/// A database, and the jobs that the script has started and not finished.
#[derive(Drop)]
pub struct Database {
    pub engine: Engine,
    pub jobs: Vec<Job>,
}

/// An empty database over a catalog whose setup is closed.
pub(crate) fn open(alloc: Global, limits: Limits, catalog: Catalog) -> Result<Database, AllocError>
    requires set_up { IsSetUp limits.bound_rows catalog }
    requires closed { catalog.closed ≡ true }
    ensures { IfOk result (Opens limits.bound_rows catalog) }
{
    let Ok(engine) = Engine::new(alloc, catalog, limits) else {
        return Err(AllocError);
    };
    Ok(Database {
        engine,
        jobs: Vec::new(alloc),
    })
}
