// The negative codes that each service may answer with, as tables in the order of the original.
ghost use Rattle.std.specs.Prelude.{◌≡◌};
ghost use Rattle.paper.specs.RoutineControl.{file_transfer_negative_codes, routine_negative_codes};

const ROUTINE_CONTROL_NEGATIVE_RESPONSE_CODES: [u8; 7] = [0x12, 0x13, 0x22, 0x24, 0x31, 0x33, 0x72];

const REQUEST_FILE_TRANSFER_NEGATIVE_RESPONSE_CODES: [u8; 7] = [
    0x13, 0x22, 0x24, 0x31, 0x33, 0x34, 0x70,
];

pub fn routine_control_allowed_nack_codes() -> [u8; 7]
    ensures { result ≡ routine_negative_codes }
{
    ROUTINE_CONTROL_NEGATIVE_RESPONSE_CODES
}

pub fn request_file_transfer_allowed_nack_codes() -> [u8; 7]
    ensures { result ≡ file_transfer_negative_codes }
{
    REQUEST_FILE_TRANSFER_NEGATIVE_RESPONSE_CODES
}
