//! Why a job is not done.
use std::alloc::AllocError;
use thiserror::Error;

#[derive(Clone, Copy, Debug, Error)]
pub enum JobFault {
    #[error("no such job")]
    NoJob,
    #[error("the configuration is refused")]
    Config,
    #[error("a device failed")]
    Device,
    #[error("no memory")]
    NoMemory,
}

impl From<AllocError> for JobFault {
    fn from(_error: AllocError) -> Self {
        JobFault::NoMemory
    }
}
