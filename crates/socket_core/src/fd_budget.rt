//! How many connections may be open at one time, and how many of them each worker has.
use std::alloc::{AllocError, Global};
use std::sync::Arc;
use std::sync::atomic::{AtomicU64, Ordering};

/// Seats for connections. Each connection needs two descriptors, of which the second is wanted when it is offered a
/// server; so no more clients are taken than there are permits for.
#[derive(Drop)]
pub struct FdBudget {
    taken: AtomicU64,
    most: u64,
    /// How many permits each worker has.
    by_worker: Vec<AtomicU64>,
}

impl FdBudget {
    pub fn new(alloc: Global, most: u64, workers: usize) -> Result<FdBudget, AllocError> {
        let mut by_worker = Vec::new(alloc);
        for _worker in 0..workers {
            by_worker.push(AtomicU64::new(0))?;
        }
        Ok(FdBudget {
            taken: AtomicU64::new(0),
            most,
            by_worker,
        })
    }

    /// How many permits the worker of that number has.
    pub fn permits_of(&self, worker: usize) -> u64 {
        match self.by_worker.get(worker) {
            Some(own) => own.load(Ordering::SeqCst),
            None => 0,
        }
    }

    fn count(&self, worker: usize) {
        if let Some(own) = self.by_worker.get(worker) {
            let _before = own.fetch_add(1, Ordering::SeqCst);
        }
    }

    fn give_back(&self, worker: usize) {
        let _taken = self.taken.fetch_sub(1, Ordering::SeqCst);
        if let Some(own) = self.by_worker.get(worker) {
            let _before = own.fetch_sub(1, Ordering::SeqCst);
        }
    }
}

/// The permit of a connection of a worker. Dropping it gives it back.
pub struct FdPermit {
    budget: Arc<FdBudget, Global>,
    worker: usize,
}

impl FdPermit {
    /// A permit for the worker of that number, if one is left.
    pub fn ask(budget: &Arc<FdBudget, Global>, worker: usize) -> Option<FdPermit> {
        let owner = Arc::try_clone(budget).ok()?;
        if budget.taken.fetch_add(1, Ordering::SeqCst) < budget.most {
            budget.count(worker);
            Some(FdPermit {
                budget: owner,
                worker,
            })
        } else {
            let _taken = budget.taken.fetch_sub(1, Ordering::SeqCst);
            None
        }
    }
}

impl Drop for FdPermit {
    fn drop(self) {
        let Self { budget, worker } = self;
        budget.give_back(worker);
    }
}
