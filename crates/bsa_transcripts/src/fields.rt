//! The descriptor that a script sets.
ghost use Rattle.std.specs.Prelude.{◌≡◌, ◌≤◌, ◌<◌, length, [], IsSome};
ghost use Rattle.bsa_descriptor.specs.Descriptor.{empty_descriptor, spelling};
ghost use Rattle.bsa_descriptor.specs.Kinds.{copy_type_code, object_type_code, status_code};
ghost use Rattle.bsa_lines.specs.BsaLine.{line_of_bsa};
ghost use Rattle.bsa_lines.specs.Lines.{IsLine, width_of};
ghost use Rattle.bsa_transcripts.specs.Fields.{after_line, fields_of, with_text};

use arrayvec::ArrayVec;
use bsa_descriptor::{CopyType, ObjectStatus, ObjectType};
use bsa_lines::{BsaLine, TextField};
use byte_fields::{write_bytes, write_text, write_u64, write_zeros};

/// The fields of a descriptor as a script sets them. A text may fill the whole width of its field, and may have any bytes.
#[derive(Clone, Debug, Drop)]
pub struct Fields {
    bsa_owner: ArrayVec<u8, 64>,
    app_owner: ArrayVec<u8, 64>,
    space: ArrayVec<u8, 1024>,
    path: ArrayVec<u8, 1024>,
    restore_order: u64,
    estimated_size: u64,
    copy_type: CopyType,
    object_type: ObjectType,
    status: ObjectStatus,
    resource: ArrayVec<u8, 31>,
    description: ArrayVec<u8, 100>,
    info: ArrayVec<u8, 256>,
}

// The bytes of a text that its field can hold.
fn text_of<const W: usize>(value: &[u8]) -> ArrayVec<u8, W>
    requires { length value.now ≤ W }
    ensures { result.items ≡ value.now }
{
    match ArrayVec::try_from(value) {
        Ok(text) => text,
        Err(_) => unreachable!(),
    }
}

impl Fields {
    /// Empty texts, zeros, and `Any` for each kind.
    pub fn empty() -> Fields
        ensures { fields_of result ≡ empty_descriptor }
    {
        Fields {
            bsa_owner: ArrayVec::new(),
            app_owner: ArrayVec::new(),
            space: ArrayVec::new(),
            path: ArrayVec::new(),
            restore_order: 0,
            estimated_size: 0,
            copy_type: CopyType::Any,
            object_type: ObjectType::Any,
            status: ObjectStatus::Any,
            resource: ArrayVec::new(),
            description: ArrayVec::new(),
            info: ArrayVec::new(),
        }
    }

    /// Does what a line says of the descriptor. A call leaves it as it is.
    pub fn take(&mut self, line: &BsaLine)
        requires { IsLine (line_of_bsa line.now) }
        ensures { fields_of self.new ≡ after_line (line_of_bsa line.now) (fields_of self.old) }
    {
        match line {
            BsaLine::SetText { field, value } => self.set_text(*field, value.as_slice()),
            BsaLine::SetOrder { value } => self.restore_order = *value,
            BsaLine::SetSize { value } => self.estimated_size = *value,
            BsaLine::SetCopyType { value } => self.copy_type = *value,
            BsaLine::SetObjectType { value } => self.object_type = *value,
            BsaLine::SetStatus { value } => self.status = *value,
            BsaLine::Clear => *self = Fields::empty(),
            _ => {}
        }
    }

    // Sets a field that takes a text.
    fn set_text(&mut self, field: TextField, value: &[u8])
        requires { length value.now ≤ width_of field }
        ensures { fields_of self.new ≡ with_text field value.now (fields_of self.old) }
    {
        match field {
            TextField::BsaOwner => self.bsa_owner = text_of(value),
            TextField::AppOwner => self.app_owner = text_of(value),
            TextField::Space => self.space = text_of(value),
            TextField::Path => self.path = text_of(value),
            TextField::Resource => self.resource = text_of(value),
            TextField::Description => self.description = text_of(value),
            TextField::Info => self.info = text_of(value),
        }
    }

    /// Writes the record of the fields, 2,624 bytes, over whatever the array has. Where a text fills its field or has another
    /// byte than a printed one, it is no descriptor's record.
    pub fn encode_into(&self, into: &mut [u8; 2624])
        ensures { into.new ≡ spelling (fields_of self.now) }
    {
        write_text(into, 0, 64, self.bsa_owner.as_slice());
        write_text(into, 64, 64, self.app_owner.as_slice());
        write_text(into, 128, 1024, self.space.as_slice());
        write_text(into, 1152, 1024, self.path.as_slice());
        write_u64(into, 2176, 0);
        write_u64(into, 2184, 0);
        write_u64(into, 2192, self.restore_order);
        write_u64(into, 2200, self.estimated_size);
        write_bytes(into, 2208, &[copy_type_byte(self.copy_type)]);
        write_bytes(into, 2209, &[object_type_byte(self.object_type)]);
        write_bytes(into, 2210, &[status_byte(self.status)]);
        write_text(into, 2211, 31, self.resource.as_slice());
        write_text(into, 2242, 100, self.description.as_slice());
        write_text(into, 2342, 256, self.info.as_slice());
        write_zeros(into, 2598, 26);
    }
}

fn copy_type_byte(kind: CopyType) -> u8
    ensures { result ≡ copy_type_code kind }
{
    match kind {
        CopyType::Any => 1,
        CopyType::Archive => 2,
        CopyType::Backup => 3,
    }
}

fn object_type_byte(kind: ObjectType) -> u8
    ensures { result ≡ object_type_code kind }
{
    match kind {
        ObjectType::Any => 1,
        ObjectType::Database => 2,
        ObjectType::Log => 3,
    }
}

fn status_byte(kind: ObjectStatus) -> u8
    ensures { result ≡ status_code kind }
{
    match kind {
        ObjectStatus::Any => 1,
        ObjectStatus::MostRecent => 2,
        ObjectStatus::NotMostRecent => 3,
    }
}
