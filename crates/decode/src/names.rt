//! Codes by their names.
ghost use Rattle.std.specs.Prelude.{◌≡◌};
ghost use Rattle.std.specs.Option.{option_map};
ghost use Rattle.decode.specs.Names.{name_in, operation_name, response_names};
ghost use Rattle.wire.specs.Operations.{operation_of};

use std::fmt;
use wire::operation::{OperationCode, operation_of};

/// A code, and its name if it has one.
#[derive(Clone, Copy)]
pub struct Code {
    pub number: u16,
    pub name: Option<&'static str>,
}

impl Code {
    /// The code of an operation.
    pub fn of_operation(number: u16) -> Code
        ensures number { result.number ≡ number }
        ensures name { option_map (λ s. s.now) result.name ≡ option_map (λ o. operation_name o.code) (operation_of number) }
    {
        Code {
            number,
            name: operation_of(number).map(|operation| operation_name(operation.code)),
        }
    }

    /// The code of a response.
    pub fn of_response(number: u16) -> Code
        ensures number { result.number ≡ number }
        ensures name { option_map (λ s. s.now) result.name ≡ name_in response_names number }
    {
        Code {
            number,
            name: response_name(number),
        }
    }
}

/// A code by its name, or else by its number.
impl fmt::Display for Code {
    // A name is written as it stands.
    ghost output = { λ code. option_map (λ s. s.now) code.name };

    fn fmt<W: fmt::Write>(&self, f: &mut fmt::Formatter<W>) -> fmt::Result {
        match self.name {
            Some(name) => f.write_str(name),
            None => write!(f, "{:#06x}", self.number),
        }
    }
}

/// The name of an operation.
fn operation_name(code: OperationCode) -> &'static str
    ensures { result.now ≡ operation_name code }
{
    match code {
        OperationCode::GetDeviceInfo => "GetDeviceInfo",
        OperationCode::OpenSession => "OpenSession",
        OperationCode::CloseSession => "CloseSession",
        OperationCode::GetStorageIds => "GetStorageIDs",
        OperationCode::GetStorageInfo => "GetStorageInfo",
        OperationCode::GetObjectHandles => "GetObjectHandles",
        OperationCode::GetObjectInfo => "GetObjectInfo",
        OperationCode::GetObject => "GetObject",
        OperationCode::DeleteObject => "DeleteObject",
        OperationCode::SendObjectInfo => "SendObjectInfo",
        OperationCode::SendObject => "SendObject",
        OperationCode::GetPartialObject => "GetPartialObject",
    }
}

/// The name of a response code.
fn response_name(code: u16) -> Option<&'static str>
    ensures { option_map (λ s. s.now) result ≡ name_in response_names code }
{
    match code {
        0x2001 => Some("OK"),
        0x2002 => Some("General_Error"),
        0x2003 => Some("Session_Not_Open"),
        0x2004 => Some("Invalid_TransactionID"),
        0x2005 => Some("Operation_Not_Supported"),
        0x2006 => Some("Parameter_Not_Supported"),
        0x2007 => Some("Incomplete_Transfer"),
        0x2008 => Some("Invalid_StorageID"),
        0x2009 => Some("Invalid_ObjectHandle"),
        0x200b => Some("Invalid_ObjectFormatCode"),
        0x200c => Some("Store_Full"),
        0x200d => Some("Object_WriteProtected"),
        0x200e => Some("Store_Read_Only"),
        0x200f => Some("Access_Denied"),
        0x2014 => Some("Specification_By_Format_Unsupported"),
        0x2015 => Some("No_Valid_ObjectInfo"),
        0x201a => Some("Invalid_ParentObject"),
        0x201d => Some("Invalid_Parameter"),
        0x201e => Some("Session_Already_Open"),
        0x201f => Some("Transaction_Cancelled"),
        0xa806 => Some("Invalid_Dataset"),
        0xa809 => Some("Object_Too_Large"),
        _ => None,
    }
}
