//! The descriptor of a backup object, and its record.
ghost use Rattle.std.specs.Prelude.{◌≡◌, [], IfSome, Some};
ghost use Rattle.bsa_descriptor.specs.declared.descriptor.Descriptor.{Descriptor};
ghost use Rattle.bsa_descriptor.specs.Descriptor.{IsDescriptor, empty_descriptor, spelling};

use crate::fields::{write_number, write_text};
use crate::groups::{kinds_of, names_of, notes_of, numbers_of};
use crate::{CopyType, ObjectStatus, ObjectType, Text};
use byte_fields::{is_zero_from, write_bytes, write_zeros};

/// What is known of a backup object, and what a query asks for.
#[derive(Clone, Debug, Drop, PartialEq, Eq)]
pub struct Descriptor {
    /// Who owns the object for the service.
    pub bsa_owner: Text<64>,
    /// Who owns it for the application.
    pub app_owner: Text<64>,
    /// The object space, the first part of its name.
    pub space: Text<1024>,
    /// The path within the space.
    pub path: Text<1024>,
    /// When the object was made.
    pub create_time: u64,
    /// The number that tells the copies of a name apart.
    pub copy: u64,
    /// Where the object comes in a restore.
    pub restore_order: u64,
    /// The size that the application expects, in bytes.
    pub estimated_size: u64,
    /// What the object is a copy for.
    pub copy_type: CopyType,
    /// What the object holds.
    pub object_type: ObjectType,
    /// Whether the object is the newest of its name.
    pub status: ObjectStatus,
    /// The type of the resource that the object is a copy of.
    pub resource: Text<31>,
    /// A few words on the object.
    pub description: Text<100>,
    /// Whatever the application notes.
    pub info: Text<256>,
}

impl Descriptor {
    /// Empty texts, zeros, and `Any` for each kind.
    pub fn empty() -> Descriptor
        ensures { result ≡ empty_descriptor }
    {
        Descriptor {
            bsa_owner: Text::empty(),
            app_owner: Text::empty(),
            space: Text::empty(),
            path: Text::empty(),
            create_time: 0,
            copy: 0,
            restore_order: 0,
            estimated_size: 0,
            copy_type: CopyType::Any,
            object_type: ObjectType::Any,
            status: ObjectStatus::Any,
            resource: Text::empty(),
            description: Text::empty(),
            info: Text::empty(),
        }
    }

    /// Writes the record of the descriptor, 2,624 bytes, over whatever the array has.
    ///
    /// Each text stands in its field with zeros behind it, each number in eight bytes, big-endian, and each
    /// kind in one byte, 1 to 3.
    pub fn encode_into(&self, into: &mut [u8; 2624])
        ensures spelled { into.new ≡ spelling self.now }
        ensures descriptor { IsDescriptor self.now }
        // So `decode` of the record gives this descriptor back.
        ensures no_other { (d : Descriptor) → IsDescriptor d → into.new ≡ spelling d → d ≡ self.now }
    {
        write_text(into, 0, &self.bsa_owner);
        write_text(into, 64, &self.app_owner);
        write_text(into, 128, &self.space);
        write_text(into, 1152, &self.path);
        write_number(into, 2176, self.create_time);
        write_number(into, 2184, self.copy);
        write_number(into, 2192, self.restore_order);
        write_number(into, 2200, self.estimated_size);
        write_bytes(into, 2208, &[self.copy_type.code()]);
        write_bytes(into, 2209, &[self.object_type.code()]);
        write_bytes(into, 2210, &[self.status.code()]);
        write_text(into, 2211, &self.resource);
        write_text(into, 2242, &self.description);
        write_text(into, 2342, &self.info);
        write_zeros(into, 2598, 26);
    }

    /// The descriptor that the bytes spell, or `None` exactly where no descriptor is spelled so.
    pub fn decode(bytes: &[u8; 2624]) -> Option<Descriptor>
        ensures found { IfSome result (λ d. bytes.now ≡ spelling d) }
        ensures descriptor { IfSome result IsDescriptor }
        ensures only { (d : Descriptor) → IsDescriptor d → bytes.now ≡ spelling d → result ≡ Some d }
    {
        if !is_zero_from(bytes, 2598) {
            return None;
        }
        let names = names_of(bytes)?;
        let numbers = numbers_of(bytes);
        let kinds = kinds_of(bytes)?;
        let notes = notes_of(bytes)?;
        Some(Descriptor {
            bsa_owner: names.bsa_owner,
            app_owner: names.app_owner,
            space: names.space,
            path: names.path,
            create_time: numbers.create_time,
            copy: numbers.copy,
            restore_order: numbers.restore_order,
            estimated_size: numbers.estimated_size,
            copy_type: kinds.copy_type,
            object_type: kinds.object_type,
            status: kinds.status,
            resource: notes.resource,
            description: notes.description,
            info: notes.info,
        })
    }
}
