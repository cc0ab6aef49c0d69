//! The library functions by name, in the order of their numbers.
ghost use Rattle.std.specs.Prelude.{◌≡◌};
ghost use Rattle.lib_defs.specs.Names.{name_text};

/// A library function: those of Annex K, then those of clause 7, each in the order of its number.
#[derive(Clone, Copy, Debug, PartialEq, Eq)]
pub enum RowName {
    /// `memcpy_s` (K.3.7.1.1)
    MemcpyS,
    /// `wmemcpy_s` (K.3.9.2.1.3)
    WmemcpyS,
    /// `memmove_s` (K.3.7.1.2)
    MemmoveS,
    /// `wmemmove_s` (K.3.9.2.1.4)
    WmemmoveS,
    /// `memset_s` (K.3.7.4.1)
    MemsetS,
    /// `strcpy_s` (K.3.7.1.3)
    StrcpyS,
    /// `wcscpy_s` (K.3.9.2.1.1)
    WcscpyS,
    /// `strncpy_s` (K.3.7.1.4)
    StrncpyS,
    /// `wcsncpy_s` (K.3.9.2.1.2)
    WcsncpyS,
    /// `strcat_s` (K.3.7.2.1)
    StrcatS,
    /// `wcscat_s` (K.3.9.2.2.1)
    WcscatS,
    /// `strncat_s` (K.3.7.2.2)
    StrncatS,
    /// `wcsncat_s` (K.3.9.2.2.2)
    WcsncatS,
    /// `strtok_s` (K.3.7.3.1)
    StrtokS,
    /// `wcstok_s` (K.3.9.2.3.1)
    WcstokS,
    /// `strerror_s` (K.3.7.4.2)
    StrerrorS,
    /// `wctomb_s` (K.3.6.4.1)
    WctombS,
    /// `strnlen_s` (K.3.7.4.4)
    StrnlenS,
    /// `wcsnlen_s` (K.3.9.2.4.1)
    WcsnlenS,
    /// `strerrorlen_s` (K.3.7.4.3)
    StrerrorlenS,
    /// `set_constraint_handler_s` (K.3.6.1.1)
    SetConstraintHandlerS,
    /// `abort_handler_s` (K.3.6.1.2)
    AbortHandlerS,
    /// `ignore_handler_s` (K.3.6.1.3)
    IgnoreHandlerS,
    /// `memcpy` (7.24.2.1)
    Memcpy,
    /// `memmove` (7.24.2.2)
    Memmove,
    /// `wmemcpy` (7.29.4.2.3)
    Wmemcpy,
    /// `memset` (7.24.6.1)
    Memset,
    /// `wmemset` (7.29.4.6.2)
    Wmemset,
    /// `memcmp` (7.24.4.1)
    Memcmp,
    /// `memchr` (7.24.5.1)
    Memchr,
    /// `strlen` (7.24.6.3)
    Strlen,
    /// `wcslen` (7.29.4.6.1)
    Wcslen,
    /// `strcpy` (7.24.2.3)
    Strcpy,
    /// `wcscpy` (7.29.4.2.1)
    Wcscpy,
    /// `strcat` (7.24.3.1)
    Strcat,
    /// `wcscat` (7.29.4.3.1)
    Wcscat,
    /// `strncpy` (7.24.2.4)
    Strncpy,
    /// `strncat` (7.24.3.2)
    Strncat,
    /// `strcmp` (7.24.4.2)
    Strcmp,
    /// `strncmp` (7.24.4.4)
    Strncmp,
    /// `wcscmp` (7.29.4.4.1)
    Wcscmp,
    /// `strchr` (7.24.5.2)
    Strchr,
    /// `strrchr` (7.24.5.5)
    Strrchr,
    /// `malloc` (7.22.3.4)
    Malloc,
    /// `calloc` (7.22.3.2)
    Calloc,
    /// `realloc` (7.22.3.5)
    Realloc,
    /// `free` (7.22.3.3)
    Free,
    /// `exit` (7.22.4.4)
    Exit,
    /// `abort` (7.22.4.1)
    Abort,
    /// `putchar` (7.21.7.8)
    Putchar,
    /// `puts` (7.21.7.9)
    Puts,
    /// `getchar` (7.21.7.6)
    Getchar,
    /// `printf` (7.21.6.3)
    Printf,
}

/// The library functions in the order of their numbers.
pub(crate) const ROWS: [RowName; 53] = [
    RowName::MemcpyS,
    RowName::WmemcpyS,
    RowName::MemmoveS,
    RowName::WmemmoveS,
    RowName::MemsetS,
    RowName::StrcpyS,
    RowName::WcscpyS,
    RowName::StrncpyS,
    RowName::WcsncpyS,
    RowName::StrcatS,
    RowName::WcscatS,
    RowName::StrncatS,
    RowName::WcsncatS,
    RowName::StrtokS,
    RowName::WcstokS,
    RowName::StrerrorS,
    RowName::WctombS,
    RowName::StrnlenS,
    RowName::WcsnlenS,
    RowName::StrerrorlenS,
    RowName::SetConstraintHandlerS,
    RowName::AbortHandlerS,
    RowName::IgnoreHandlerS,
    RowName::Memcpy,
    RowName::Memmove,
    RowName::Wmemcpy,
    RowName::Memset,
    RowName::Wmemset,
    RowName::Memcmp,
    RowName::Memchr,
    RowName::Strlen,
    RowName::Wcslen,
    RowName::Strcpy,
    RowName::Wcscpy,
    RowName::Strcat,
    RowName::Wcscat,
    RowName::Strncpy,
    RowName::Strncat,
    RowName::Strcmp,
    RowName::Strncmp,
    RowName::Wcscmp,
    RowName::Strchr,
    RowName::Strrchr,
    RowName::Malloc,
    RowName::Calloc,
    RowName::Realloc,
    RowName::Free,
    RowName::Exit,
    RowName::Abort,
    RowName::Putchar,
    RowName::Puts,
    RowName::Getchar,
    RowName::Printf,
];

impl RowName {
    /// The name of the function.
    pub fn text(self) -> &'static str
        ensures { result.now ≡ name_text self }
    {
        match self {
            RowName::MemcpyS => "memcpy_s",
            RowName::WmemcpyS => "wmemcpy_s",
            RowName::MemmoveS => "memmove_s",
            RowName::WmemmoveS => "wmemmove_s",
            RowName::MemsetS => "memset_s",
            RowName::StrcpyS => "strcpy_s",
            RowName::WcscpyS => "wcscpy_s",
            RowName::StrncpyS => "strncpy_s",
            RowName::WcsncpyS => "wcsncpy_s",
            RowName::StrcatS => "strcat_s",
            RowName::WcscatS => "wcscat_s",
            RowName::StrncatS => "strncat_s",
            RowName::WcsncatS => "wcsncat_s",
            RowName::StrtokS => "strtok_s",
            RowName::WcstokS => "wcstok_s",
            RowName::StrerrorS => "strerror_s",
            RowName::WctombS => "wctomb_s",
            RowName::StrnlenS => "strnlen_s",
            RowName::WcsnlenS => "wcsnlen_s",
            RowName::StrerrorlenS => "strerrorlen_s",
            RowName::SetConstraintHandlerS => "set_constraint_handler_s",
            RowName::AbortHandlerS => "abort_handler_s",
            RowName::IgnoreHandlerS => "ignore_handler_s",
            RowName::Memcpy => "memcpy",
            RowName::Memmove => "memmove",
            RowName::Wmemcpy => "wmemcpy",
            RowName::Memset => "memset",
            RowName::Wmemset => "wmemset",
            RowName::Memcmp => "memcmp",
            RowName::Memchr => "memchr",
            RowName::Strlen => "strlen",
            RowName::Wcslen => "wcslen",
            RowName::Strcpy => "strcpy",
            RowName::Wcscpy => "wcscpy",
            RowName::Strcat => "strcat",
            RowName::Wcscat => "wcscat",
            RowName::Strncpy => "strncpy",
            RowName::Strncat => "strncat",
            RowName::Strcmp => "strcmp",
            RowName::Strncmp => "strncmp",
            RowName::Wcscmp => "wcscmp",
            RowName::Strchr => "strchr",
            RowName::Strrchr => "strrchr",
            RowName::Malloc => "malloc",
            RowName::Calloc => "calloc",
            RowName::Realloc => "realloc",
            RowName::Free => "free",
            RowName::Exit => "exit",
            RowName::Abort => "abort",
            RowName::Putchar => "putchar",
            RowName::Puts => "puts",
            RowName::Getchar => "getchar",
            RowName::Printf => "printf",
        }
    }
}
