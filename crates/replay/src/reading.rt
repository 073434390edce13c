// The full reading: 165 requests at the drive's own address.
use drive::Drive;
use drive::results::Refused;
use lines::gathering::{front, gather, gather_number};
use observed::sums::Sum;

// The requests that are not for a cell.
const OTHERS: [&[u8]; 34] = [
    b"QS,AD", b"QS,IN", b"QS,RS", b"QS,ES", b"QS,CM", b"QA", b"QO,O0", b"QO,O1", b"QO,O2",
    b"QO,O3", b"QO,FC", b"QO,F0", b"QO,F1", b"QO,F2", b"QO,F3", b"QO,F4", b"QO,F5", b"QO,F6",
    b"QO,F7", b"QO,CU", b"QI,I0", b"QI,I1", b"QI,I2", b"QI,PX", b"QI,S0", b"QI,S1", b"QI,S2",
    b"QI,S3", b"QI,ST", b"QI,ES", b"QI,EE", b"QC", b"QE", b"QR",
];

// Sends a request, with a buffer of 64 bytes, and adds the answer. The drive stays as it is. Of an
// address that no sound drive has, the last two digits are sent.
fn ask(drive: Drive, sum: Sum, request: &[u8]) -> Result<Sum, Refused> {
    let address = drive.machine.state.presets.address.0;
    let digits = [b'0' + address / 10 % 10, b'0' + address % 10];
    let mut string = [0u8; 16];
    let a = gather(&mut string, 0, &digits);
    let b = gather(&mut string, a, request);
    let n = gather(&mut string, b, b"\r");
    let mut buffer = [0u8; 64];
    let told = drive.string(front(&string, n), &mut buffer)?;
    Ok(sum.with_all(front(&buffer, told.length)))
}

// The weighted sum of all answers.
pub fn read_all(drive: Drive) -> Result<Sum, Refused> {
    let mut sum = Sum::new();
    for address in Drive::FIRST..=Drive::LAST {
        let mut request = [0u8; 6];
        let a = gather(&mut request, 0, b"QM,");
        gather_number(&mut request, a, address as u32);
        sum = ask(drive, sum, &request)?;
    }
    for request in OTHERS {
        sum = ask(drive, sum, request)?;
    }
    Ok(sum)
}
