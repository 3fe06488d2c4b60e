//! An open store whose image is in memory.
use image_disk::ImageDisk;
use store::Store;

/// An open store.
#[derive(Drop)]
pub struct Session {
    pub(crate) store: Store<ImageDisk<'static>>,
}
