/// Why a file is no archive of so many versions: its bytes are no sound archive, the folder failed,
/// or there is no memory.
#[derive(Clone, Copy, Debug, PartialEq, Eq)]
pub enum CheckFault {
    Damage,
    Folder,
    Memory,
}
