//! The names of files by their identifiers, for titles and file control information.

use crate::instructions::SIM_CLASS;

/// Files of any card (ISO/IEC 7816-4, 7.4; ETSI TS 102 221, 13).
static ALL: [(u16, &str); 9] = [
    (0x2F00, "EF.DIR"),
    (0x2F01, "EF.ATR"),
    (0x2F05, "EF.PL"),
    (0x2F06, "EF.ARR"),
    (0x2F08, "EF.UMPC"),
    (0x2FE2, "EF.ICCID"),
    (0x3F00, "MF"),
    (0x7F10, "DF.TELECOM"),
    (0x7FFF, "current ADF"),
];

/// More of a SIM card's class (3GPP TS 51.011, 10). Other cards give these identifiers to others.
static OF_SIM: [(u16, &str); 33] = [
    (0x6F05, "EF.LP"),
    (0x6F07, "EF.IMSI"),
    (0x6F20, "EF.Kc"),
    (0x6F30, "EF.PLMNsel"),
    (0x6F31, "EF.HPPLMN"),
    (0x6F37, "EF.ACMmax"),
    (0x6F38, "EF.SST"),
    (0x6F39, "EF.ACM"),
    (0x6F3A, "EF.ADN"),
    (0x6F3B, "EF.FDN"),
    (0x6F3C, "EF.SMS"),
    (0x6F3D, "EF.CCP"),
    (0x6F3E, "EF.GID1"),
    (0x6F3F, "EF.GID2"),
    (0x6F40, "EF.MSISDN"),
    (0x6F41, "EF.PUCT"),
    (0x6F42, "EF.SMSP"),
    (0x6F43, "EF.SMSS"),
    (0x6F44, "EF.LND"),
    (0x6F45, "EF.CBMI"),
    (0x6F46, "EF.SPN"),
    (0x6F47, "EF.SMSR"),
    (0x6F48, "EF.CBMID"),
    (0x6F49, "EF.SDN"),
    (0x6F4A, "EF.EXT1"),
    (0x6F74, "EF.BCCH"),
    (0x6F78, "EF.ACC"),
    (0x6F7B, "EF.FPLMN"),
    (0x6F7E, "EF.LOCI"),
    (0x6FAD, "EF.AD"),
    (0x6FAE, "EF.Phase"),
    (0x7F20, "DF.GSM"),
    (0x7F21, "DF.DCS1800"),
];

/// Returns the name of the file with this identifier, or at the end of this path, for commands of
/// this class; empty without one.
pub fn file_name(cla: u8, path: &[u8]) -> &'static str {
    let [.., high, low] = path else {
        return "";
    };
    let id = u16::from_be_bytes([*high, *low]);
    match (found(&ALL, id), cla) {
        ("", SIM_CLASS) => found(&OF_SIM, id),
        (name, _) => name,
    }
}

/// Returns the name in the row with this identifier; empty without one.
fn found(rows: &[(u16, &'static str)], id: u16) -> &'static str {
    rows.iter().find(|row| row.0 == id).map_or("", |row| row.1)
}
