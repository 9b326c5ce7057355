//! The operations that the responder knows.
ghost use Rattle.std.specs.Prelude.{◌≡◌, IfSome, ◌==◌};
ghost use Rattle.wire.specs.Operations.{operation_number, operation_of};

/// What an operation is, with its code on the wire.
#[derive(Clone, Copy, Debug, PartialEq, Eq)]
pub enum OperationCode {
    GetDeviceInfo = 0x1001,
    OpenSession = 0x1002,
    CloseSession = 0x1003,
    GetStorageIds = 0x1004,
    GetStorageInfo = 0x1005,
    GetObjectHandles = 0x1007,
    GetObjectInfo = 0x1008,
    GetObject = 0x1009,
    DeleteObject = 0x100b,
    SendObjectInfo = 0x100c,
    SendObject = 0x100d,
    GetPartialObject = 0x101b,
}

impl OperationCode {
    /// The code on the wire.
    pub fn number(self) -> u16
        ensures { result ≡ operation_number self }
    {
        self as u16
    }
}

/// One operation: its code, and how many parameters it has.
#[derive(Clone, Copy, Debug, PartialEq, Eq)]
pub struct Operation {
    pub code: OperationCode,
    pub parameters: u8,
}

/// Every operation, by ascending code.
pub const OPERATIONS: [Operation; 12] = [
    Operation {
        code: OperationCode::GetDeviceInfo,
        parameters: 0,
    },
    Operation {
        code: OperationCode::OpenSession,
        parameters: 1,
    },
    Operation {
        code: OperationCode::CloseSession,
        parameters: 0,
    },
    Operation {
        code: OperationCode::GetStorageIds,
        parameters: 0,
    },
    Operation {
        code: OperationCode::GetStorageInfo,
        parameters: 1,
    },
    Operation {
        code: OperationCode::GetObjectHandles,
        parameters: 3,
    },
    Operation {
        code: OperationCode::GetObjectInfo,
        parameters: 1,
    },
    Operation {
        code: OperationCode::GetObject,
        parameters: 1,
    },
    Operation {
        code: OperationCode::DeleteObject,
        parameters: 2,
    },
    Operation {
        code: OperationCode::SendObjectInfo,
        parameters: 2,
    },
    Operation {
        code: OperationCode::SendObject,
        parameters: 0,
    },
    Operation {
        code: OperationCode::GetPartialObject,
        parameters: 3,
    },
];

impl Operation {
    fn has_code(&self, code: u16) -> bool
        ensures { result ≡ (operation_number self.now.code == code) }
    {
        self.code.number() == code
    }
}

/// The operation with this code, if it is known.
pub fn operation_of(code: u16) -> Option<Operation>
    ensures value { result ≡ operation_of code }
    ensures code { IfSome result (λ o. operation_number o.code ≡ code) }
{
    OPERATIONS
        .iter()
        .find(|operation| operation.has_code(code))
        .copied()
}
