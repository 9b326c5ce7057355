//! The DeviceInfo dataset.
ghost use Rattle.std.specs.Prelude.{◌≡◌, ◌+◌, ◌≤◌, map, length, ⊤};
ghost use Rattle.object.specs.Formats.{format_number, formats};
ghost use Rattle.wire.specs.Containers.{numbers, data_container};
ghost use Rattle.wire.specs.Operations.{operation_codes};
ghost use Rattle.wire.specs.Writing.{Wrote, placed};
ghost use Rattle.datasets.specs.DeviceInfos.{device_version, device_codes, device_texts, device_info};
ghost use Rattle.datasets.specs.Samples.{Samples};

use crate::text::units;
use object::format::Format;
use wire::container::Heading;
use wire::data::write_data;
use wire::fault::DatasetFault;
use wire::operation::OPERATIONS;
use wire::put::{Put, put_array, put_bytes, put_number, put_string};

/// Version 1.00.
const STANDARD: u16 = 100;

/// Every format, by ascending number.
const FORMATS: [Format; 3] = [Format::Undefined, Format::Association, Format::Text];

/// The version of the standard that the formats follow, as the DeviceInfo tells it: in hundredths.
#[tactic(auto, using(crate::proofs::Shown::samples))]
pub fn standard_version() -> u16
    ensures value { result ≡ 100 }
    ensures samples { Samples }
{
    STANDARD
}

fn put_version(out: &mut [u8], place: usize) -> usize
    requires { place + 11 ≤ length out.old }
    ensures { Wrote place device_version out.old out.new result }
{
    let next = put_number(out, place, standard_version());
    let next = put_number(out, next, 6u32);
    let next = put_number(out, next, standard_version());
    let next = put_string(out, next, &[]);
    put_number(out, next, 0u16)
}

fn operation_codes() -> [u16; 12]
    ensures { result ≡ operation_codes }
{
    OPERATIONS.map(|operation| operation.code.number())
}

fn format_numbers() -> [u16; 3]
    ensures { result ≡ map format_number formats }
{
    FORMATS.map(|format| format.number())
}

/// Puts the arrays of the operations, of the events, device properties and capture formats, which are empty, and of the formats.
#[tactic(auto, using(wire::proofs::Puts::length_put), unfolding(wire::specs::Strings::array))]
fn put_codes(out: &mut [u8], place: usize) -> usize
    requires { place + 50 ≤ length out.old }
    ensures { Wrote place device_codes out.old out.new result }
{
    let next = put_array(out, place, &operation_codes());
    let next = put_bytes(out, next, &[0; 12]);
    put_array(out, next, &format_numbers())
}

fn put_texts(out: &mut [u8], place: usize) -> usize
    requires { place + 36 ≤ length out.old }
    ensures { Wrote place device_texts out.old out.new result }
{
    let next = put_string(out, place, &units(b"Spares"));
    let next = put_string(out, next, &units(b"Drip"));
    let next = put_string(out, next, &units(b"1"));
    put_string(out, next, &units(b"0"))
}

/// What the DeviceInfo says is always the same.
struct DeviceInfo;

impl Put for DeviceInfo {
    ghost bytes = { λ d. device_info };

    ghost fits = { λ d. ⊤ };

    #[tactic(auto, using(crate::proofs::Lengths::length_device_info))]
    fn size(&self) -> usize {
        97
    }

    #[tactic(auto, using(wire::proofs::Puts::length_put, crate::proofs::Lengths::length_device_info), unfolding(wire::specs::Strings::array))]
    fn put(&self, out: &mut [u8], place: usize) -> usize {
        let next = put_version(out, place);
        let next = put_codes(out, next);
        put_texts(out, next)
    }
}

/// Writes the data container of the DeviceInfo.
pub fn write_device_info(out: &mut [u8], heading: Heading) -> Result<usize, DatasetFault>
    ensures { (result, out.new) ≡ placed (data_container heading.code heading.transaction device_info) out.old }
{
    write_data(out, heading, &DeviceInfo)
}
