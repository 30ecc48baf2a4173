//! Disks as a journal sees them: what a read gives, and which images a stop at any moment may
//! leave. A disk in memory keeps a record of its calls, fails where it is told to, and can be
//! stopped after any of them.
//!
//! ```
//! let mut disk = MemDisk::new(alloc)?;
//! disk.write_at(0, b"ab")?;
//! disk.sync()?;
//! let after_a_stop = disk.stop_image(alloc, 1, Pick::Lost)?;
//! ```
//!
//! A cabinet is a place of named texts and disks, of which one disk is out at a time: in memory, or
//! the files of the system. It knows whether two names are of one disk, and lends a disk that is to
//! be read alone also where nothing may be written.
//!
//! ```
//! let mut cabinet = DirCabinet::new(rt);
//! let mut disk = cabinet.disk("journal")?;
//! let len = disk.len();
//! cabinet.back(disk);
//! ```
#![tactic(auto)]

mod cabinet;
mod call;
mod dir_cabinet;
mod disk;
mod file_disk;
mod files;
mod mem_cabinet;
mod mem_disk;
mod named;
mod recording;
mod shelf;
mod trouble;

pub use cabinet::Cabinet;
pub use call::DiskCall;
pub use dir_cabinet::DirCabinet;
pub use disk::Disk;
pub use file_disk::FileDisk;
pub use hose_io::Failed;
pub use mem_cabinet::MemCabinet;
pub use mem_disk::MemDisk;
pub use recording::Pick;
pub use trouble::Trouble;
