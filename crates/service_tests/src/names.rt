//! The numbers of the services, which are this board's own, and the status codes by their names in the
//! ThreadX API (`tx_api.h`).

pub const OBJECT_ALLOCATE: u32 = 0x01;

pub const OBJECT_DEALLOCATE: u32 = 0x02;

pub const OBJECT_POINTER_GET: u32 = 0x03;

pub const THREAD_CREATE: u32 = 0x10;

pub const THREAD_DELETE: u32 = 0x11;

pub const THREAD_TERMINATE: u32 = 0x12;

pub const THREAD_SUSPEND: u32 = 0x13;

pub const THREAD_RESUME: u32 = 0x14;

pub const THREAD_SLEEP: u32 = 0x15;

pub const THREAD_RELINQUISH: u32 = 0x16;

pub const THREAD_IDENTIFY: u32 = 0x17;

pub const THREAD_INFO_GET: u32 = 0x18;

pub const THREAD_PREEMPTION_CHANGE: u32 = 0x19;

pub const THREAD_PRIORITY_CHANGE: u32 = 0x1A;

pub const THREAD_TIME_SLICE_CHANGE: u32 = 0x1B;

pub const THREAD_WAIT_ABORT: u32 = 0x1C;

pub const THREAD_RESET: u32 = 0x1D;

pub const THREAD_COMPLETE: u32 = 0x1F;

pub const SUCCESS: u32 = 0x00;

pub const PTR_ERROR: u32 = 0x03;

pub const SIZE_ERROR: u32 = 0x05;

pub const OPTION_ERROR: u32 = 0x08;

pub const NO_INSTANCE: u32 = 0x0D;

pub const THREAD_ERROR: u32 = 0x0E;

pub const PRIORITY_ERROR: u32 = 0x0F;

pub const NO_MEMORY: u32 = 0x10;

pub const START_ERROR: u32 = 0x10;

pub const DELETE_ERROR: u32 = 0x11;

pub const RESUME_ERROR: u32 = 0x12;

pub const CALLER_ERROR: u32 = 0x13;

pub const SUSPEND_ERROR: u32 = 0x14;

pub const THRESH_ERROR: u32 = 0x18;

pub const SUSPEND_LIFTED: u32 = 0x19;

pub const WAIT_ABORTED: u32 = 0x1A;

pub const WAIT_ABORT_ERROR: u32 = 0x1B;

pub const NOT_DONE: u32 = 0x20;

pub const INVALID_MEMORY: u32 = 0xF4;

pub const FEATURE_NOT_ENABLED: u32 = 0xFF;
