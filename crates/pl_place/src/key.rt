ghost use Rattle.std.specs.Prelude.{◌≡◌};
ghost use Rattle.pl_place.specs.Keys as spec;

/// The keys of a `place:` text.
#[derive(Clone, Copy, Debug, PartialEq, Eq)]
pub enum Key {
    BeginTime,
    BeginTimeRef,
    EndTime,
    EndTimeRef,
    Terms,
    MinVisits,
    MaxVisits,
    OnlyBookmarked,
    DomainIsHost,
    Domain,
    Uri,
    Parent,
    Tag,
    NotTags,
    Transition,
    Sort,
    Type,
    QueryType,
    IncludeHidden,
    MaxResults,
    ExcludeQueries,
}

impl Key {
    /// The key as it is written.
    pub fn name(self) -> &'static str
        ensures { result.now ≡ spec.key_name self }
    {
        match self {
            Key::BeginTime => "beginTime",
            Key::BeginTimeRef => "beginTimeRef",
            Key::EndTime => "endTime",
            Key::EndTimeRef => "endTimeRef",
            Key::Terms => "terms",
            Key::MinVisits => "minVisits",
            Key::MaxVisits => "maxVisits",
            Key::OnlyBookmarked => "onlyBookmarked",
            Key::DomainIsHost => "domainIsHost",
            Key::Domain => "domain",
            Key::Uri => "uri",
            Key::Parent => "parent",
            Key::Tag => "tag",
            Key::NotTags => "!tags",
            Key::Transition => "transition",
            Key::Sort => "sort",
            Key::Type => "type",
            Key::QueryType => "queryType",
            Key::IncludeHidden => "includeHidden",
            Key::MaxResults => "maxResults",
            Key::ExcludeQueries => "excludeQueries",
        }
    }

    /// The key that is written so.
    pub fn named(name: &str) -> Option<Key>
        ensures { result ≡ spec.key_named name.now }
    {
        match name {
            "beginTime" => Some(Key::BeginTime),
            "beginTimeRef" => Some(Key::BeginTimeRef),
            "endTime" => Some(Key::EndTime),
            "endTimeRef" => Some(Key::EndTimeRef),
            "terms" => Some(Key::Terms),
            "minVisits" => Some(Key::MinVisits),
            "maxVisits" => Some(Key::MaxVisits),
            "onlyBookmarked" => Some(Key::OnlyBookmarked),
            "domainIsHost" => Some(Key::DomainIsHost),
            "domain" => Some(Key::Domain),
            "uri" => Some(Key::Uri),
            "parent" => Some(Key::Parent),
            "tag" => Some(Key::Tag),
            "!tags" => Some(Key::NotTags),
            "transition" => Some(Key::Transition),
            "sort" => Some(Key::Sort),
            "type" => Some(Key::Type),
            "queryType" => Some(Key::QueryType),
            "includeHidden" => Some(Key::IncludeHidden),
            "maxResults" => Some(Key::MaxResults),
            "excludeQueries" => Some(Key::ExcludeQueries),
            _ => None,
        }
    }
}
