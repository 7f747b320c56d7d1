//! The catalogue and the volumes.
use catalogue_journal::Catalogue;
use object_volume::Volume;

/// The catalogue of a service and its 17 volumes: 0 to 15 for the spaces, 16 for the log.
#[derive(Drop)]
pub struct Store<D> {
    pub cat: Catalogue<D>,
    pub volumes: Vec<Volume<D>>,
}
